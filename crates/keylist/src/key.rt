// Key reader: the public key of a key id, as a part of the list.
ghost use Rattle.std.specs.Prelude.{◌≡◌};
ghost use Rattle.keylist.specs.Layout.{parse};
ghost use Rattle.keylist.specs.Answers.{key_place_in, key_part};
ghost use Rattle.keylist.specs.Helpers.{IsGood};

use crate::KeyId;
use crate::check::{check, first_read, place_in};
use wire::refusal::{Reason, Refusal};
use wire::span::Span;

// The checking entry: where the public key lies, or what is wrong with the list, with its place, or 4.
pub fn find(list: &[u8], id: KeyId) -> Result<Span, Refusal>
    ensures { result ≡ key_place_in id.0 (parse list.now) }
{
    check(list)?;
    find_in_good(list, id)
}

// The public key, its Npk bytes and no others; empty exactly where `find` refuses.
pub fn read(list: &[u8], id: KeyId) -> &[u8]
    ensures { result.now ≡ key_part list.now (key_place_in id.0 (parse list.now)) }
{
    match find(list, id) {
        Ok(Span { start, end }) => &list[start..end],
        Err(_) => &list[..0],
    }
}

// The search in a list that was checked, which is why it may ask for a good one.
fn find_in_good(list: &[u8], id: KeyId) -> Result<Span, Refusal>
    requires { IsGood list.now }
    ensures { result ≡ key_place_in id.0 (parse list.now) }
{
    let mut at = first_read(list, 0);
    while let Some(place) = place_in(list, at) {
        if place.key_id == id.0 {
            return Ok(place.key);
        }
        at = place.next;
    }
    Err(Refusal::from(Reason::NoSuchKey))
}
