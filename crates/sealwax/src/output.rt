// Standard output, through a buffer: the answers that wait to be written stand at its front.
ghost use Rattle.std.specs.Prelude.{◌≤◌};

use crate::failure::Failure;
use crate::hex::put_digits;
use results::outcome::Outcome;
use std::{fmt, io};

// The buffer has room for the longest answer, of `split` or `request`, behind as much as waits in it before a line.
const OUTPUT_SIZE: usize = 262144;

const MOST_WAITING: usize = 65536;

// The bytes of the buffer up to `end` wait, and the answer to the line at hand starts at `start`.
#[derive(Drop)]
pub(crate) struct Output {
    bytes: [u8; OUTPUT_SIZE],
    start: usize,
    end: usize,
    ghost within: { end ≤ 262144 },
}

impl Output {
    pub(crate) fn new() -> Self {
        Output {
            bytes: [0; OUTPUT_SIZE],
            start: 0,
            end: 0,
        }
    }

    // Puts bytes behind what waits; what has no room is left out.
    pub(crate) fn put(&mut self, bytes: &[u8]) {
        let count = bytes.len().min(OUTPUT_SIZE - self.end);
        let end = self.end + count;
        self.bytes[self.end..end].copy_from_slice(&bytes[..count]);
        self.end = end;
    }

    // Bytes in hexadecimal, as `Hex` shows them, written where they are to stand: what is short and many is not made a text first.
    pub(crate) fn put_hex(&mut self, bytes: &[u8]) {
        if bytes.is_empty() {
            return self.put(b"-");
        }
        let count = bytes.len().min((OUTPUT_SIZE - self.end) / 2);
        let end = self.end + count * 2;
        put_digits(bytes, &mut self.bytes[self.end..end]);
        self.end = end;
    }

    // What a format says.
    pub(crate) fn print<D: fmt::Display + Drop>(&mut self, text: D) {
        let _ = fmt::Write::write(self, text);
    }

    // The answer to a call: what it says, or the refusal.
    pub(crate) fn answer<D: fmt::Display + Drop>(&mut self, outcome: Outcome, text: D) {
        if outcome.number == 0 {
            self.print(text);
        } else {
            self.print(Refused(outcome));
        }
    }

    // Ends the line of an answer, where there is one. Much that waits is written.
    pub(crate) fn end_answer<W: io::Write>(&mut self, writer: &mut W) -> Result<(), Failure> {
        if self.end == self.start {
            return Ok(());
        }
        self.put(b"\n");
        self.start = self.end;
        if self.end < MOST_WAITING {
            return Ok(());
        }
        self.flush(writer)
    }

    // Writes what waits.
    pub(crate) fn flush<W: io::Write>(&mut self, writer: &mut W) -> Result<(), Failure> {
        let end = self.end;
        self.start = 0;
        self.end = 0;
        writer
            .write_all(&self.bytes[..end])
            .map_err(|_| Failure::Output)
    }
}

impl fmt::Write for Output {
    fn write_str(&mut self, s: &str) -> fmt::Result {
        self.put(s.as_bytes());
        Ok(())
    }
}

// A refusal: its number, its place where it has one, the status where one is sent, the problem type where there is one.
#[derive(Clone, Copy)]
struct Refused(Outcome);

impl fmt::Display for Refused {
    fn fmt<W: fmt::Write>(&self, f: &mut fmt::Formatter<W>) -> fmt::Result {
        let outcome = self.0;
        write!(f, "refused {}", outcome.number)?;
        if outcome.has_place {
            write!(f, " at {}", outcome.place)?;
        }
        if outcome.status != 0 {
            write!(f, " status={}", outcome.status)?;
        }
        if outcome.problem != Outcome::NO_PROBLEM {
            f.write_str(" ohttp-key")?;
        }
        Ok(())
    }
}
