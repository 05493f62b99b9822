// Standard input, through a buffer: the bytes that were read and wait to be answered.
ghost use Rattle.std.specs.Prelude.{◌≤◌, IfSome};

use crate::failure::Failure;
use memchr::memchr;
use std::io::Read;

// The most bytes of a line.
pub(crate) const MOST_LINE: usize = 140100;

// The buffer holds such a line and more.
const INPUT_SIZE: usize = 262144;

// The bytes of the buffer from `start` up to `end` wait. `lines` counts the lines passed. Where `ended` holds, nothing more is to be read.
#[derive(Drop)]
pub(crate) struct Input {
    pub bytes: [u8; INPUT_SIZE],
    pub start: usize,
    pub end: usize,
    pub lines: u64,
    pub ended: bool,
    ghost ordered: { start ≤ end },
    ghost within: { end ≤ 262144 },
}

impl Input {
    pub(crate) fn new() -> Self {
        Input {
            bytes: [0; INPUT_SIZE],
            start: 0,
            end: 0,
            lines: 0,
            ended: false,
        }
    }

    // Where the line that waits ends: at its newline, or, where nothing more is to be read, behind the last byte; none where it is not whole.
    pub(crate) fn line_end(&self) -> Option<usize>
        ensures { IfSome result (λ at. (self.now.start ≤ at) × (at ≤ self.now.end)) }
    {
        match memchr(b'\n', &self.bytes[self.start..self.end]) {
            Some(length) => Some(self.start + length),
            None => {
                if self.ended && self.start < self.end {
                    Some(self.end)
                } else {
                    None
                }
            }
        }
    }

    // Passes the line that ends at a place.
    pub(crate) fn pass(&mut self, end: usize) {
        self.start = self.end.min(end.saturating_add(1));
        self.lines = self.lines.wrapping_add(1);
    }

    // Moves what waits to the front of the buffer, and reads more behind it. Of a line that fills the buffer only so much is kept that it is still too long.
    pub(crate) fn more<R: Read>(&mut self, reader: &mut R) -> Result<(), Failure> {
        let mut left = self.end - self.start;
        self.bytes.copy_within(self.start..self.end, 0);
        if left == INPUT_SIZE {
            left = MOST_LINE + 1;
        }
        self.start = 0;
        self.end = left;
        let count = reader
            .read(&mut self.bytes[left..])
            .map_err(|_| Failure::Input)?;
        self.end = left + count;
        self.ended = count == 0;
        Ok(())
    }
}
