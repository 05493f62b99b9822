// What is wrong with a message.
ghost use Rattle.std.specs.Prelude.{◌≡◌, ◌++◌, Some, codes};
ghost use Rattle.std.specs.Fmt.{decimal};
ghost use Rattle.wire.specs.Refusals.{refused_at};

use std::error::Error;
use std::fmt;
use wire::refusal::{Reason, Refusal};

// A message that is wrong at a place.
#[derive(Clone, Copy, Debug, PartialEq, Eq)]
pub struct BadMessage {
    pub place: usize,
}

impl fmt::Display for BadMessage {
    ghost output = { λ bad. Some (codes "the message is wrong at " ++ decimal bad.place) };

    fn fmt<W: fmt::Write>(&self, f: &mut fmt::Formatter<W>) -> fmt::Result {
        write!(f, "the message is wrong at {}", self.place)
    }
}

impl Error for BadMessage {}

// It is refused as 23, with its place.
impl From<BadMessage> for Refusal {
    ghost from_gives = { λ bad refusal. refusal ≡ refused_at 23 bad.place };

    fn from(bad: BadMessage) -> Refusal {
        Reason::BadMessage.at(bad.place)
    }
}
