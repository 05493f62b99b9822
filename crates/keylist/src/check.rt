// Reads a key list: whether it is good as a whole, and the fields of one configuration. The start of a configuration stands in the one before it, so
// the walks here go by offsets, not over elements.
ghost use Rattle.std.specs.Prelude.{◌≡◌, ◌+◌, ◌<◌, ◌≤◌, length};
ghost use Rattle.wire.specs.Search.{among};
ghost use Rattle.algorithms.specs.Sizes.{public_key_length};
ghost use Rattle.algorithms.specs.Stated.{size_bound};
ghost use Rattle.keylist.specs.Layout.{fault_of, field_at_fault, is_skipped, kem_at, next_start, pair_bytes_hold};
ghost use Rattle.keylist.specs.Answers.{checked};
ghost use Rattle.keylist.specs.Helpers.{first_read, number_or_0, place_at, place_in};

use crate::{Counts, Place};
use algorithms::Kem;
use wire::bytes::{byte_at, word_at};
use wire::refusal::{Reason, Refusal};
use wire::span::Span;

// The house limits.
pub const MOST_CONFIGURATIONS: usize = 16;

pub const MOST_PAIR_BYTES: usize = 64;

// So many pair bytes may be in one configuration.
pub fn pair_bytes_hold(size: usize) -> bool
    ensures { result ≡ pair_bytes_hold size }
{
    size % 4 == 0 && 4 <= size && size <= MOST_PAIR_BYTES
}

// Where the next configuration would start. It asks for an offset in the list, so that no sum wraps.
fn next_start(list: &[u8], at: usize) -> usize
    requires { at < length list.now }
    ensures { result ≡ next_start list.now at }
{
    at + 2 + (word_at(list, at) as usize)
}

// The key id is among those taken.
fn is_taken(taken: &[u8], id: u8) -> bool
    ensures { result ≡ among taken.now id }
{
    taken.contains(&id)
}

// The first fault of the configuration at an offset of the list; none where it is good or skipped. `key` is its KEM's key length, 0 where
// that is unknown; `more` is how many may still come, this one counted. It asks for an offset in the list and for that key length, so that no sum
// wraps and the table is not asked again.
#[tactic(auto, using(crate::proofs::LayoutLaws::faults))]
fn fault(list: &[u8], at: usize, key: usize, more: usize, taken: &[u8]) -> Option<Reason>
    requires { (at < length list.now) × (key ≡ public_key_length (kem_at list.now at)) × (key ≤ size_bound) }
    ensures { number_or_0 result ≡ fault_of more taken.now list.now at }
{
    if more == 0 {
        return Some(Reason::TooManyConfigurations);
    }
    if list.len() < next_start(list, at) {
        return Some(Reason::ListTruncated);
    }
    let size = word_at(list, at) as usize;
    if size < 3 {
        return Some(Reason::LengthMismatch);
    }
    if key == 0 {
        return None;
    }
    if size < 5 + key {
        return Some(Reason::LengthMismatch);
    }
    let pair_bytes = word_at(list, at + 5 + key) as usize;
    if !pair_bytes_hold(pair_bytes) {
        return Some(Reason::BadPairLength);
    }
    if size != 5 + key + pair_bytes {
        return Some(Reason::LengthMismatch);
    }
    if is_taken(taken, byte_at(list, at + 2)) {
        return Some(Reason::DuplicateKeyId);
    }
    None
}

// The first byte of the field at fault, by the refusal number, counted from the configuration's start, where its public key ends there. Every number has an
// answer, so it takes a number and not a reason.
pub fn field_at_fault(end: usize, number: u8) -> usize
    ensures value { result ≡ field_at_fault 0 end number }
    ensures bound { result ≤ 3 + end }
{
    match number {
        // an unknown KEM
        3 => 3,
        // a bad pair length
        20 => end,
        // a key id that stands twice
        21 => 2,
        _ => 0,
    }
}

// The configuration at an offset is skipped: it lies whole in the list, has room for its KEM, and that is unknown.
#[tactic(auto, using(crate::proofs::LayoutLaws::skips))]
fn is_skipped(list: &[u8], at: usize) -> bool
    ensures { result ≡ is_skipped list.now at }
{
    at < list.len()
        && next_start(list, at) <= list.len()
        && 3 <= word_at(list, at)
        && key_length(word_at(list, at + 3)) == 0
}

// From an offset on, where the first configuration starts that is not skipped, or the list ends.
pub fn first_read(list: &[u8], from: usize) -> usize
    ensures { result ≡ first_read list.now from }
{
    let mut at = from;
    for skipped in 0..MOST_CONFIGURATIONS {
        if !is_skipped(list, at) {
            return at;
        }
        at = next_start(list, at);
    }
    at
}

// How many configurations of a list were read and how many skipped, or the first fault with its place.
pub fn check(list: &[u8]) -> Result<Counts, Refusal>
    ensures { result ≡ checked list.now }
{
    if list.is_empty() {
        return Err(Reason::ListTruncated.at(0));
    }
    // The key ids of those that were read. The library has no heap, and `read` counts for the answer as well.
    let mut taken = [0u8; MOST_CONFIGURATIONS];
    let mut read = 0;
    let mut skipped = 0;
    let mut at = 0;
    while at < list.len() {
        let key = key_length(word_at(list, at + 3));
        let more = MOST_CONFIGURATIONS - (read + skipped);
        if let Some(reason) = fault(list, at, key, more, &taken[..read]) {
            return Err(reason.at(at + field_at_fault(5 + key, reason.number())));
        }
        if key == 0 {
            skipped += 1;
            at = next_start(list, at);
            continue;
        }
        taken[read] = byte_at(list, at + 2);
        read += 1;
        at = next_start(list, at);
    }
    Ok(Counts { read, skipped })
}

// The fields of the configuration whose length stands at an offset, where its parts lie, and where the next one that is read starts; none past the end.
pub fn place_in(list: &[u8], at: usize) -> Option<Place>
    ensures { result ≡ place_in list.now at }
{
    if list.len() <= at {
        return None;
    }
    let kem = word_at(list, at + 3);
    Some(Place {
        key_id: byte_at(list, at + 2),
        kem,
        key: Span {
            start: at + 5,
            end: at + 5 + key_length(kem),
        },
        next: first_read(list, next_start(list, at)),
    })
}

// The same at every offset: past the end all is 0, and the next one would start there.
pub fn place_at(list: &[u8], at: usize) -> Place
    ensures { result ≡ place_at list.now at }
{
    place_in(list, at).unwrap_or(Place {
        key_id: 0,
        kem: 0,
        key: Span { start: 0, end: 0 },
        next: at,
    })
}

// Npk, 0 where the KEM is unknown.
#[tactic(auto, using(crate::proofs::LayoutLaws::key_or_0))]
pub fn key_length(kem: u16) -> usize
    ensures value { result ≡ public_key_length kem }
    ensures bound { result ≤ size_bound }
{
    Kem(kem).public_key_length().unwrap_or(0)
}
