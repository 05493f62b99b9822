// What every answer begins with, and the results that are an outcome with a number or two.
ghost use Rattle.std.specs.Prelude.{◌≡◌, MatchResult};
ghost use Rattle.results.specs.Outcome.{sends, refused_by, sent, with_number, refused_number, with_two_numbers, refused_two_numbers};

use keylist::Counts;
use wire::refusal::Refusal;
use wire::span::Span;

// The refusal number, 0 where the call is accepted; whether the refusal has a place, and its place; the HTTP status to send, 0 where
// nothing is sent; the problem type of an unprotected answer. Number, flag and place are no Option or enum: the struct is C's.
#[repr(C)]
#[derive(Clone, Copy, Default)]
pub struct Outcome {
    pub number: u8,
    pub has_place: bool,
    pub place: usize,
    pub status: u16,
    pub problem: u8,
}

impl Outcome {
    // Problem types.
    pub const NO_PROBLEM: u8 = 0;

    pub const OHTTP_KEY: u8 = 1;

    // An accepted call; the status is 0 where nothing is sent.
    pub(crate) fn sends(status: u16) -> Self
        ensures { result ≡ sends status }
    {
        Outcome {
            status,
            ..Outcome::default()
        }
    }
}

// A refusal that sends nothing.
impl From<Refusal> for Outcome {
    ghost from_gives = { λ refusal outcome. outcome ≡ refused_by refusal };

    fn from(refusal: Refusal) -> Outcome {
        Outcome {
            number: refusal.number,
            has_place: refusal.place.is_some(),
            place: refusal.place.unwrap_or(0),
            ..Outcome::default()
        }
    }
}

// An outcome and a number, 0 on refusal.
#[repr(C)]
#[derive(Clone, Copy, Default)]
pub struct NumberResult {
    pub outcome: Outcome,
    pub number: u64,
}

impl NumberResult {
    // With the status that is sent, 0 where none is.
    pub(crate) fn sent(status: u16, number: u64) -> Self
        ensures { result ≡ sent status number }
    {
        NumberResult {
            outcome: Outcome::sends(status),
            number,
        }
    }
}

impl From<usize> for NumberResult {
    ghost from_gives = { λ number result. result ≡ with_number number };

    fn from(number: usize) -> NumberResult {
        NumberResult::sent(0, number as u64)
    }
}

impl<T: Into<NumberResult>> From<Result<T, Refusal>> for NumberResult {
    ghost from_gives = { λ answer result. MatchResult answer (λ value. T.Into.converts value result)
        (λ refusal. result ≡ refused_number refusal) };

    fn from(answer: Result<T, Refusal>) -> NumberResult {
        match answer {
            Ok(value) => value.into(),
            Err(refusal) => NumberResult {
                outcome: refusal.into(),
                ..NumberResult::default()
            },
        }
    }
}

// An outcome and two numbers, 0 on refusal.
#[repr(C)]
#[derive(Clone, Copy, Default)]
pub struct TwoNumbersResult {
    pub outcome: Outcome,
    pub first: usize,
    pub second: usize,
}

impl From<(usize, usize)> for TwoNumbersResult {
    ghost from_gives = { λ numbers result. result ≡ with_two_numbers numbers.0 numbers.1 };

    fn from((first, second): (usize, usize)) -> TwoNumbersResult {
        TwoNumbersResult {
            first,
            second,
            ..TwoNumbersResult::default()
        }
    }
}

impl From<Span> for TwoNumbersResult {
    ghost from_gives = { λ span result. result ≡ with_two_numbers span.start span.end };

    fn from(span: Span) -> TwoNumbersResult {
        (span.start, span.end).into()
    }
}

impl From<Counts> for TwoNumbersResult {
    ghost from_gives = { λ counts result. result ≡ with_two_numbers counts.read counts.skipped };

    fn from(counts: Counts) -> TwoNumbersResult {
        (counts.read, counts.skipped).into()
    }
}

impl<T: Into<TwoNumbersResult>> From<Result<T, Refusal>> for TwoNumbersResult {
    ghost from_gives = { λ answer result. MatchResult answer (λ value. T.Into.converts value result)
        (λ refusal. result ≡ refused_two_numbers refusal) };

    fn from(answer: Result<T, Refusal>) -> TwoNumbersResult {
        match answer {
            Ok(value) => value.into(),
            Err(refusal) => TwoNumbersResult {
                outcome: refusal.into(),
                ..TwoNumbersResult::default()
            },
        }
    }
}
