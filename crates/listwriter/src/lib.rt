// List writer (01, "List writer"; 02, A2): key lists from configurations that are given as slices: key ids, KEMs, public key lengths, the
// key bytes of all, how many pair numbers each has, and the pair numbers of all, KDF and AEAD by turns.
#![tactic(auto)]

ghost use Rattle.std.specs.Prelude.{◌≡◌, ◌+◌, ◌*◌, ◌≤◌, IsOkAnd, leb, length, drop};
ghost use Rattle.wire.specs.Tests.{◌and◌};
ghost use Rattle.wire.specs.Bytes.{word_bytes};
ghost use Rattle.wire.specs.Helpers.{overwritten};
ghost use Rattle.keylist.specs.Layout.{pair_bytes_hold};
ghost use Rattle.listwriter.specs.Writer.{fields, first_kem, first_key_length, first_pair_count, behind_first, none_left, encode, written_in, written_to, words_bytes};
ghost use Rattle.keylist.specs.Helpers.{number_or_0};
ghost use Rattle.listwriter.specs.Helpers.{walk_bound, fields_of, first_length, first_bytes, HasSizes, fault_of_first, first_checked, length_written};

use algorithms::Kem;
use keylist::check::{
    MOST_CONFIGURATIONS, MOST_PAIR_BYTES, field_at_fault, key_length, pair_bytes_hold,
};
use wire::bytes::overwrite;
use wire::refusal::{Reason, Refusal};

// The items behind the first so many; none where there are fewer.
fn behind<T>(items: &[T], count: usize) -> &[T]
    ensures { result.now ≡ drop count items.now }
{
    items.get(count..).unwrap_or(&[])
}

// So many pair numbers may be in one configuration, and are there.
fn pairs_hold(count: usize, left: usize) -> bool
    ensures { result ≡ (pair_bytes_hold (count * 2) and leb count left) }
{
    // This bound comes first, so that the product behind it cannot wrap.
    count <= MOST_PAIR_BYTES && pair_bytes_hold(count * 2) && count <= left
}

// A number as two bytes at an offset of a buffer that has room for it. It copies an array of two: `overwrite`, which learns their number when it runs,
// would call memcpy for each.
fn write_word(buffer: &mut [u8], at: usize, word: u16)
    requires { at + 2 ≤ length buffer.old }
    ensures { buffer.new ≡ overwritten buffer.old at (word_bytes word) }
{
    buffer[at..at + 2].copy_from_slice(&word.to_be_bytes());
}

// Numbers, two bytes each, from an offset of a buffer that has room for them.
fn write_words(buffer: &mut [u8], at: usize, words: &[u16])
    requires { at + length words.now * 2 ≤ length buffer.old }
    ensures { buffer.new ≡ overwritten buffer.old at (words_bytes words.now) }
{
    for (done, word) in words.iter().enumerate() {
        write_word(buffer, at + done * 2, *word);
    }
}

// Configurations as they are given, or what is left of them behind some, without their key ids: the slices that `write` takes.
#[derive(Clone, Copy)]
struct Configurations<'a> {
    kems: &'a [u16],
    key_lengths: &'a [usize],
    keys: &'a [u8],
    pair_counts: &'a [usize],
    pairs: &'a [u16],
}

impl<'a> Configurations<'a> {
    // No field is left.
    fn is_empty(&self) -> bool
        ensures { result ≡ none_left (fields_of self.now) }
    {
        self.kems.is_empty()
            && self.key_lengths.is_empty()
            && self.keys.is_empty()
            && self.pair_counts.is_empty()
            && self.pairs.is_empty()
    }

    // The KEM of the first, 0 where there is none.
    fn first_kem(&self) -> u16
        ensures { result ≡ first_kem (fields_of self.now) }
    {
        self.kems.first().copied().unwrap_or(0)
    }

    // Its public key length as announced, 0 where there is none.
    fn first_key_length(&self) -> usize
        ensures { result ≡ first_key_length (fields_of self.now) }
    {
        self.key_lengths.first().copied().unwrap_or(0)
    }

    // How many pair numbers are announced for it, 0 where there is none.
    fn first_pair_count(&self) -> usize
        ensures { result ≡ first_pair_count (fields_of self.now) }
    {
        self.pair_counts.first().copied().unwrap_or(0)
    }

    // How many bytes it makes. It asks for sizes as the layout allows them, so that no sum wraps.
    fn first_size(&self) -> usize
        requires { HasSizes (fields_of self.now) }
        ensures { result ≡ 2 + first_length (fields_of self.now) }
    {
        7 + self.first_key_length() + self.first_pair_count() * 2
    }

    // Writes it with its key id from an offset of a buffer that has room for it.
    fn write_first(&self, buffer: &mut [u8], at: usize, id: u8)
        requires sizes { HasSizes (fields_of self.now) }
        requires room { at + 2 + first_length (fields_of self.now) ≤ length buffer.old }
        ensures { buffer.new ≡ overwritten buffer.old at (first_bytes id (fields_of self.now)) }
    {
        let key_length = self.first_key_length();
        let pair_count = self.first_pair_count();
        let length = (5 + key_length + pair_count * 2) as u16;
        let [length_high, length_low] = length.to_be_bytes();
        let [kem_high, kem_low] = self.first_kem().to_be_bytes();
        overwrite(
            buffer,
            at,
            &[length_high, length_low, id, kem_high, kem_low],
        );
        overwrite(buffer, at + 5, &self.keys[..key_length]);
        write_word(buffer, at + 5 + key_length, (pair_count * 2) as u16);
        write_words(buffer, at + 7 + key_length, &self.pairs[..pair_count]);
    }

    // What is left behind it.
    fn behind_first(&self) -> Configurations<'a>
        ensures { fields_of result ≡ behind_first (fields_of self.now) }
    {
        Configurations {
            kems: behind(self.kems, 1),
            key_lengths: behind(self.key_lengths, 1),
            keys: behind(self.keys, self.first_key_length()),
            pair_counts: behind(self.pair_counts, 1),
            pairs: behind(self.pairs, self.first_pair_count()),
        }
    }

    // Its first fault, if it has one, where so many stand before it and its key id is taken or not.
    #[tactic(auto, using(crate::proofs::Faults::faults))]
    fn first_fault(&self, before: usize, is_taken: bool) -> Option<Reason>
        ensures { number_or_0 result ≡ fault_of_first before is_taken (fields_of self.now) }
    {
        if MOST_CONFIGURATIONS <= before {
            return Some(Reason::TooManyConfigurations);
        }
        let Some(right) = Kem(self.first_kem()).public_key_length() else {
            return Some(Reason::UnknownKem);
        };
        let key = self.first_key_length();
        if key != right || self.keys.len() < key {
            return Some(Reason::LengthMismatch);
        }
        if !pairs_hold(self.first_pair_count(), self.pairs.len()) {
            return Some(Reason::BadPairLength);
        }
        is_taken.then_some(Reason::DuplicateKeyId)
    }

    // The same with the place of the fault, where it would start at an offset. It asks for an offset as the walk has them, so that no sum wraps.
    fn check_first(&self, at: usize, before: usize, is_taken: bool) -> Result<(), Refusal>
        requires { at ≤ walk_bound }
        ensures { result ≡ first_checked at before is_taken (fields_of self.now) }
    {
        match self.first_fault(before, is_taken) {
            None => Ok(()),
            Some(reason) => {
                let end = 5 + key_length(self.first_kem());
                Err(reason.at(at + field_at_fault(end, reason.number())))
            }
        }
    }
}

// The length of the list that the fields make, or the first fault with its place.
fn list_length(ids: &[u8], given: Configurations<'_>) -> Result<usize, Refusal>
    ensures { result ≡ length_written (encode ids.now (fields_of given.entry)) }
{
    if ids.is_empty() {
        return Err(Reason::ListTruncated.at(0));
    }
    let mut at = 0;
    let mut rest = given;
    for (before, id) in ids.iter().enumerate() {
        rest.check_first(at, before, ids[..before].contains(id))?;
        at += rest.first_size();
        rest = rest.behind_first();
    }
    if rest.is_empty() {
        Ok(at)
    } else {
        Err(Reason::LengthMismatch.at(at))
    }
}

// Writes the list that the fields make into a buffer that has room for it.
fn write_all(ids: &[u8], given: Configurations<'_>, buffer: &mut [u8])
    requires { IsOkAnd (encode ids.now (fields_of given)) (λ bytes. length bytes ≤ length buffer.old) }
    ensures { buffer.new ≡ written_to buffer.old (encode ids.now (fields_of given.entry)) }
{
    let mut at = 0;
    let mut rest = given;
    for id in ids {
        rest.write_first(buffer, at, *id);
        at += rest.first_size();
        rest = rest.behind_first();
    }
}

// Writes configurations given as fields at the buffer's front and answers the length; the rest stays.
pub fn write(
    ids: &[u8],
    kems: &[u16],
    key_lengths: &[usize],
    keys: &[u8],
    pair_counts: &[usize],
    pairs: &[u16],
    buffer: &mut [u8],
) -> Result<usize, Refusal>
    ensures value { result ≡ written_in (length buffer.old) (encode ids.now
        (fields kems.now key_lengths.now keys.now pair_counts.now pairs.now)) }
    ensures buffer_after { buffer.new ≡ written_to buffer.old (encode ids.now
        (fields kems.now key_lengths.now keys.now pair_counts.now pairs.now)) }
{
    let given = Configurations {
        kems,
        key_lengths,
        keys,
        pair_counts,
        pairs,
    };
    let length = list_length(ids, given)?;
    if buffer.len() < length {
        return Err(Reason::NoRoom.into());
    }
    write_all(ids, given, buffer);
    Ok(length)
}
