// Choose: the first configuration of a key list, and of its pairs the first, that the client can use.
ghost use Rattle.std.specs.Prelude.{◌≡◌, ◌+◌, ◌*◌, ◌%◌, ◌≤◌, length};
ghost use Rattle.wire.specs.Search.{among};
ghost use Rattle.keylist.specs.Layout.{parse, pairs_at};
ghost use Rattle.keylist.specs.Helpers.{IsGood};
ghost use Rattle.client.specs.Choose.{listed, usable_pair, choose_from};
ghost use Rattle.client.specs.Helpers.{pair_found};

use algorithms::{Aead, Kdf, is_known_pair};
use keylist::check::{check, first_read, place_in};
use keylist::{KeyId, Pair};
use wire::bytes::word_at;
use wire::refusal::{Reason, Refusal};
use wire::span::Span;

// What was chosen, and where the public key lies in the list.
#[derive(Clone, Copy, Debug, PartialEq, Eq)]
pub struct Choice {
    pub key_id: KeyId,
    pub kem: u16,
    pub pair: Pair,
    pub key: Span,
}

// The first usable configuration with its first usable pair, or the refusal: what is wrong with the list, with its place, 13, 16.
pub fn choose(list: &[u8], kems: &[u16], pairs: &[u16]) -> Result<Choice, Refusal>
    ensures { result ≡ choose_from kems.now pairs.now (parse list.now) }
{
    check(list)?;
    if pairs.len() % 2 != 0 {
        return Err(Refusal::from(Reason::WrongLength));
    }
    choose_in_good(list, kems, pairs)
}

// The choice in a list that was checked, of pairs that were counted, which is why it may ask for both.
fn choose_in_good(list: &[u8], kems: &[u16], pairs: &[u16]) -> Result<Choice, Refusal>
    requires good { IsGood list.now }
    requires even { length pairs.now % 2 ≡ 0 }
    ensures { result ≡ choose_from kems.now pairs.now (parse list.now) }
{
    let mut at = first_read(list, 0);
    while let Some(place) = place_in(list, at) {
        if is_listed_kem(kems, place.kem) {
            let count = (word_at(list, place.key.end) as usize) / 4;
            if let Some(pair) = first_usable(list, place.key.end + 2, count, pairs) {
                return Ok(Choice {
                    key_id: KeyId(place.key_id),
                    kem: place.kem,
                    pair,
                    key: place.key,
                });
            }
        }
        at = place.next;
    }
    Err(Refusal::from(Reason::NoUsableConfiguration))
}

// The KEM is in the client's list.
fn is_listed_kem(kems: &[u16], kem: u16) -> bool
    ensures { result ≡ among kems.now kem }
{
    kems.contains(&kem)
}

// The first usable one of so many pairs. They lie in the list, as those of a good configuration do.
fn first_usable(list: &[u8], from: usize, count: usize, pairs: &[u16]) -> Option<Pair>
    requires { from + count * 4 ≤ length list.now }
    ensures { result ≡ pair_found pairs.now (pairs_at count list.now from) }
{
    for i in 0..count {
        let pair = Pair {
            kdf: word_at(list, from + i * 4),
            aead: word_at(list, from + i * 4 + 2),
        };
        if is_usable_pair(pairs, pair) {
            return Some(pair);
        }
    }
    None
}

// The pair is in the client's list and known.
fn is_usable_pair(pairs: &[u16], pair: Pair) -> bool
    ensures { result ≡ usable_pair pairs.now pair }
{
    is_listed(pairs, pair) && is_known_pair(Kdf(pair.kdf), Aead(pair.aead))
}

// The pair is in the client's list: both halves of it, in one place.
fn is_listed(pairs: &[u16], pair: Pair) -> bool
    ensures { result ≡ listed pairs.now pair }
{
    let mut rest = pairs;
    while let [kdf, aead, others @ ..] = rest {
        if (Pair {
            kdf: *kdf,
            aead: *aead,
        }) == pair
        {
            return true;
        }
        rest = others;
    }
    false
}
