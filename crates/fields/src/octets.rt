// The classes of octets that field names and values are judged by.
ghost use Rattle.std.specs.Prelude.{◌≡◌, ltb};
ghost use Rattle.std.specs.List.{position};
ghost use Rattle.fields.specs.Octets.{class_of, first_below};

use crate::parts::rest_from;

// The classes are numbers and no enum: the table below, an octet to a digit, can be read so, and the definitions compare numbers.
// NUL, CR and LF.
pub(crate) const FORBIDDEN: u8 = 0;

// Space and tab.
pub(crate) const BLANK: u8 = 1;

// Any other octet.
pub(crate) const TEXT: u8 = 2;

// Lower-case token characters of RFC 9110.
pub(crate) const TOKEN: u8 = 3;

// The class of each octet. A static and no constant, which is built anew wherever it is named.
static CLASSES: [u8; 256] = [
    0, 2, 2, 2, 2, 2, 2, 2, 2, 1, 0, 2, 2, 0, 2, 2, 2, 2, 2, 2, 2, 2, 2, 2, 2, 2, 2, 2, 2, 2, 2, 2,
    1, 3, 2, 3, 3, 3, 3, 3, 2, 2, 3, 3, 2, 3, 3, 2, 3, 3, 3, 3, 3, 3, 3, 3, 3, 3, 2, 2, 2, 2, 2, 2,
    2, 2, 2, 2, 2, 2, 2, 2, 2, 2, 2, 2, 2, 2, 2, 2, 2, 2, 2, 2, 2, 2, 2, 2, 2, 2, 2, 2, 2, 2, 3, 3,
    3, 3, 3, 3, 3, 3, 3, 3, 3, 3, 3, 3, 3, 3, 3, 3, 3, 3, 3, 3, 3, 3, 3, 3, 3, 3, 3, 2, 3, 2, 3, 2,
    2, 2, 2, 2, 2, 2, 2, 2, 2, 2, 2, 2, 2, 2, 2, 2, 2, 2, 2, 2, 2, 2, 2, 2, 2, 2, 2, 2, 2, 2, 2, 2,
    2, 2, 2, 2, 2, 2, 2, 2, 2, 2, 2, 2, 2, 2, 2, 2, 2, 2, 2, 2, 2, 2, 2, 2, 2, 2, 2, 2, 2, 2, 2, 2,
    2, 2, 2, 2, 2, 2, 2, 2, 2, 2, 2, 2, 2, 2, 2, 2, 2, 2, 2, 2, 2, 2, 2, 2, 2, 2, 2, 2, 2, 2, 2, 2,
    2, 2, 2, 2, 2, 2, 2, 2, 2, 2, 2, 2, 2, 2, 2, 2, 2, 2, 2, 2, 2, 2, 2, 2, 2, 2, 2, 2, 2, 2, 2, 2,
];

// The class of an octet.
pub(crate) fn class(octet: u8) -> u8
    ensures { result ≡ class_of octet }
{
    CLASSES[octet as usize]
}

// Where the first byte of a class below this one stands.
fn position_below(bytes: &[u8], least: u8) -> Option<usize>
    ensures { result ≡ position (λ octet. ltb (class_of octet) least) bytes.now }
{
    bytes.iter().position(|octet| class(*octet) < least)
}

// From an offset on, the first byte of a class below this one; the end where there is none.
#[tactic(auto, using(crate::proofs::Places::first_place_found), unfolding(crate::specs::Octets::first_below))]
pub(crate) fn first_below(bytes: &[u8], from: usize, least: u8) -> usize
    ensures { result ≡ first_below least bytes.now from }
{
    let rest = rest_from(bytes, from);
    from + position_below(rest, least).unwrap_or(rest.len())
}
