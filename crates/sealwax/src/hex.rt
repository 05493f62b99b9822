// Bytes in hexadecimal.
use crate::parts::front_of;
use std::fmt;

// How many bytes are made digits at a time.
const PART: usize = 64;

// Bytes that are shown in hexadecimal, `-` for none.
#[derive(Clone, Copy)]
pub(crate) struct Hex<'a>(pub &'a [u8]);

impl fmt::Display for Hex<'_> {
    fn fmt<W: fmt::Write>(&self, f: &mut fmt::Formatter<W>) -> fmt::Result {
        if self.0.is_empty() {
            return f.write_str("-");
        }
        for part in self.0.chunks(PART) {
            let mut digits = [b'0'; 2 * PART];
            put_digits(part, &mut digits);
            let digits = front_of(&digits, part.len().saturating_mul(2));
            f.write_str(str::from_utf8(digits).map_err(|_| fmt::Error)?)?;
        }
        Ok(())
    }
}

// Two digits for each byte, at the front of what is given, as many as there is room for.
pub(crate) fn put_digits(bytes: &[u8], digits: &mut [u8]) {
    for (pair, byte) in digits.chunks_exact_mut(2).zip(bytes) {
        if let [high, low] = pair {
            *high = digit(*byte >> 4);
            *low = digit(*byte & 15);
        }
    }
}

// A hexadecimal digit, of a value below 16.
fn digit(value: u8) -> u8 {
    if value < 10 {
        b'0' + value
    } else {
        value % 16 + (b'a' - 10)
    }
}
