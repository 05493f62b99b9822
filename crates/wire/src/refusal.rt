// The refusals of 01 and of 02, A2 and A3.
ghost use Rattle.std.specs.Prelude.{◌≡◌, Some};
ghost use Rattle.wire.specs.Reasons.{number_of, text_of};
ghost use Rattle.wire.specs.Refusals.{refused, refused_at};

use std::error::Error;
use std::fmt;

// Why a call is refused.
#[derive(Clone, Copy, Debug, PartialEq, Eq)]
pub enum Reason {
    TooShort,
    TooLong,
    UnknownKem,
    NoSuchKey,
    OtherKem,
    PairNotOffered,
    KeyRetired,
    KeyUsedUp,
    TableFull,
    NotPending,
    StepNotAllowed,
    WrongLength,
    NoRoom,
    NoUsableConfiguration,
    CapOutOfRange,
    ListTruncated,
    LengthMismatch,
    BadPairLength,
    DuplicateKeyId,
    TooManyConfigurations,
    BadMessage,
}

impl Reason {
    // The refusal number. 10 is kept free, and 15 is no longer given.
    pub fn number(self) -> u8
        ensures { result ≡ number_of self }
    {
        match self {
            Reason::TooShort => 1,
            Reason::TooLong => 2,
            Reason::UnknownKem => 3,
            Reason::NoSuchKey => 4,
            Reason::OtherKem => 5,
            Reason::PairNotOffered => 6,
            Reason::KeyRetired => 7,
            Reason::KeyUsedUp => 8,
            Reason::TableFull => 9,
            Reason::NotPending => 11,
            Reason::StepNotAllowed => 12,
            Reason::WrongLength => 13,
            Reason::NoRoom => 14,
            Reason::NoUsableConfiguration => 16,
            Reason::CapOutOfRange => 17,
            Reason::ListTruncated => 18,
            Reason::LengthMismatch => 19,
            Reason::BadPairLength => 20,
            Reason::DuplicateKeyId => 21,
            Reason::TooManyConfigurations => 22,
            Reason::BadMessage => 23,
        }
    }

    // The refusal for this reason, with its place.
    pub fn at(self, place: usize) -> Refusal
        ensures { result ≡ refused_at (number_of self) place }
    {
        Refusal::at(self.number(), place)
    }
}

impl fmt::Display for Reason {
    ghost output = { λ reason. Some (text_of reason) };

    fn fmt<W: fmt::Write>(&self, f: &mut fmt::Formatter<W>) -> fmt::Result {
        f.write_str(match self {
            Reason::TooShort => "too short",
            Reason::TooLong => "too long",
            Reason::UnknownKem => "unknown KEM",
            Reason::NoSuchKey => "no such key",
            Reason::OtherKem => "not the KEM of the key",
            Reason::PairNotOffered => "the pair is unknown or not offered",
            Reason::KeyRetired => "the key is retired",
            Reason::KeyUsedUp => "the key is used up",
            Reason::TableFull => "too many exchanges are pending",
            Reason::NotPending => "the ticket is not pending",
            Reason::StepNotAllowed => "the step is not allowed now",
            Reason::WrongLength => "wrong length",
            Reason::NoRoom => "no room in the buffer",
            Reason::NoUsableConfiguration => "no usable configuration",
            Reason::CapOutOfRange => "the cap is out of its range",
            Reason::ListTruncated => "the key list is cut off",
            Reason::LengthMismatch => "the length of a configuration is wrong",
            Reason::BadPairLength => "the length of the pairs is wrong",
            Reason::DuplicateKeyId => "a key id stands twice in the list",
            Reason::TooManyConfigurations => "too many configurations",
            Reason::BadMessage => "the message inside is bad",
        })
    }
}

impl Error for Reason {}

// A refusal: its number, and its place where it has one. Definitions, hosts and the program say refusals by their numbers, so a reason is held as its number.
#[derive(Clone, Copy, Debug, PartialEq, Eq)]
pub struct Refusal {
    pub number: u8,
    pub place: Option<usize>,
}

impl Refusal {
    // A refusal without a place.
    pub fn of(number: u8) -> Self
        ensures { result ≡ refused number }
    {
        Refusal {
            number,
            place: None,
        }
    }

    // One with its place.
    pub fn at(number: u8, place: usize) -> Self
        ensures { result ≡ refused_at number place }
    {
        Refusal {
            number,
            place: Some(place),
        }
    }
}

impl From<Reason> for Refusal {
    ghost from_gives = { λ reason refusal. refusal ≡ refused (number_of reason) };

    fn from(reason: Reason) -> Refusal {
        Refusal::of(reason.number())
    }
}
