// Numbers of two bytes each, as a line says them: KEM numbers, or pairs of a KDF and an AEAD number.
use crate::parts::Span;

// How many numbers of two bytes a line can say, of four characters each.
const CODES_SIZE: usize = 35025;

// Numbers of two bytes, as many as were put.
#[derive(Drop)]
pub(crate) struct Codes {
    items: [u16; CODES_SIZE],
    pub count: usize,
}

impl Codes {
    pub(crate) fn new() -> Self {
        Codes {
            items: [0; CODES_SIZE],
            count: 0,
        }
    }

    // Puts the numbers that bytes say behind those that stand there, and answers where they stand. What has no room is left out.
    pub(crate) fn put(&mut self, bytes: &[u8]) -> Span {
        let start = self.count;
        for pair in bytes.chunks_exact(2) {
            if let [high, low] = pair
                && self.count < CODES_SIZE
            {
                self.items[self.count] = u16::from_be_bytes([*high, *low]);
                self.count += 1;
            }
        }
        Span {
            start,
            end: self.count,
        }
    }

    pub(crate) fn part(&self, part: Span) -> &[u16] {
        part.of(&self.items)
    }
}
