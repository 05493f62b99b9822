// The words of a line, taken one after the other: each ends at a space, or where the line does.
use crate::parts::Span;
use wire::bytes::word_at;

// The next word starts at `at`, past the end of the line where there is none.
#[derive(Drop)]
pub(crate) struct Words<'a> {
    pub line: &'a mut [u8],
    pub at: usize,
}

impl Words<'_> {
    pub(crate) fn are_taken(&self) -> bool {
        self.line.len() < self.at
    }

    // Passes the word that ends at a place, and answers where it lies; none where it is empty or does not end there.
    fn pass(&mut self, end: usize) -> Option<Span> {
        let start = self.at;
        if end <= start {
            return None;
        }
        match self.line.get(end) {
            None | Some(b' ') => {
                self.at = end.saturating_add(1);
                Some(Span { start, end })
            }
            Some(_) => None,
        }
    }

    // A word as it is.
    pub(crate) fn text(&mut self) -> Option<Span> {
        let start = self.at;
        let rest = self.line.get(start..)?;
        let length = rest
            .iter()
            .position(|byte| *byte == b' ')
            .unwrap_or(rest.len());
        self.pass(start.saturating_add(length))
    }

    // One of two texts: whether it is the first.
    pub(crate) fn one_of(&mut self, first: &[u8], second: &[u8]) -> Option<bool> {
        let text = self.text()?.of(self.line);
        if text == first {
            return Some(true);
        }
        if text == second { Some(false) } else { None }
    }

    // A decimal number, no more than the most.
    pub(crate) fn number(&mut self, most: u64) -> Option<u64> {
        let text = self.text()?;
        let mut value = 0;
        for sign in text.of(self.line) {
            value = with_digit(value, *sign, most)?;
        }
        Some(value)
    }

    // Bytes in hexadecimal, `-` for none, no more than the most. They are decoded in the line itself, from where the word starts.
    pub(crate) fn bytes(&mut self, most: usize) -> Option<Span> {
        let end = decode(self.line, self.at);
        let word = self.pass(end)?;
        let count = word.length() / 2;
        if most < count {
            return None;
        }
        let end = word.start.saturating_add(count);
        Some(Span {
            start: word.start,
            end,
        })
    }

    // Numbers of two bytes each.
    pub(crate) fn codes(&mut self, most: usize) -> Option<Span> {
        let codes = self.bytes(most)?;
        if codes.length() % 2 == 0 {
            Some(codes)
        } else {
            None
        }
    }

    // A number of two bytes.
    pub(crate) fn code(&mut self) -> Option<u64> {
        let code = self.bytes(2)?;
        if code.length() == 2 {
            Some(word_at(self.line, code.start) as u64)
        } else {
            None
        }
    }
}

// A number with a digit behind it; none where the sign is no digit, or the number is more than the most.
fn with_digit(value: u64, sign: u8, most: u64) -> Option<u64> {
    let digit = sign.wrapping_sub(b'0');
    if 9 < digit {
        return None;
    }
    let number = value.checked_mul(10)?.checked_add(u64::from(digit))?;
    if most < number { None } else { Some(number) }
}

// Decodes the pairs of hexadecimal digits from a place on, and answers the place behind them, or behind a `-`.
fn decode(line: &mut [u8], at: usize) -> usize {
    if line.len() <= at {
        return at;
    }
    if line[at] == b'-' {
        return at + 1;
    }
    // A `for` over the pairs reads no plainer, and took a seventh more instructions.
    let mut from = at;
    let mut end = at;
    while from < line.len() - 1 {
        let high = hexadecimal_digit(line[from]);
        let low = hexadecimal_digit(line[from + 1]);
        if 15 < high | low {
            break;
        }
        line[end] = high << 4 | low;
        from += 2;
        end += 1;
    }
    from
}

// The value of a hexadecimal digit; 16 for any other sign.
fn hexadecimal_digit(sign: u8) -> u8 {
    let digit = sign.wrapping_sub(b'0');
    if digit < 10 {
        return digit;
    }
    let letter = sign.wrapping_sub(b'a');
    if letter < 6 {
        return letter + 10;
    }
    16
}
