// The field reader: it holds the lent message, up to its section's end, and its place.
ghost use Rattle.std.specs.Prelude.{◌≡◌, leb, length, take};
ghost use Rattle.std.specs.Iterator.{YieldsFirstBy, item_count};
ghost use Rattle.fields.specs.Reader.{next_field, name_in, value_in, place_behind, fields_left};

use crate::field::{Field, next};
use crate::parts::{bytes_of, up_to};

#[derive(Clone, Copy)]
pub struct Reader<'a> {
    pub message: &'a [u8],
    pub at: usize,
}

impl<'a> Reader<'a> {
    // A reader of the section that starts and ends at these offsets.
    pub fn section(message: &'a [u8], start: usize, end: usize) -> Self
        ensures { (result.message.now ≡ take end message.now) × (result.at ≡ start) }
    {
        Reader {
            message: up_to(message, end),
            at: start,
        }
    }

    // There is no field left.
    pub fn at_end(&self) -> bool
        ensures { result ≡ leb (length self.now.message.now) self.now.at }
    {
        self.message.len() <= self.at
    }

    // The name of the next field, as a part of the message; empty where there is none.
    pub fn name(&self) -> &'a [u8]
        ensures { result.now ≡ name_in self.now.message.now (next_field self.now.message.now self.now.at) }
    {
        match next(self.message, self.at) {
            Ok(field) => bytes_of(self.message, field.name),
            Err(_) => &[],
        }
    }

    // Its value, in the same way.
    pub fn value(&self) -> &'a [u8]
        ensures { result.now ≡ value_in self.now.message.now (next_field self.now.message.now self.now.at) }
    {
        match next(self.message, self.at) {
            Ok(field) => bytes_of(self.message, field.value),
            Err(_) => &[],
        }
    }

    // The reader behind the next field; at the end where there is none.
    pub fn behind(&self) -> Self
        ensures { (result.message ≡ self.now.message) × (result.at ≡ place_behind self.now.message.now (next_field self.now.message.now self.now.at)) }
    {
        let at = match next(self.message, self.at) {
            Ok(field) => field.value.end,
            Err(_) => self.message.len(),
        };
        Reader {
            message: self.message,
            at,
        }
    }
}

// The fields that are left, name and value of each.
impl<'a> Iterator for Reader<'a> {
    type Item = (&'a [u8], &'a [u8]);

    ghost next_gives = { YieldsFirstBy (λ field. (field.0.now, field.1.now)) (λ reader. fields_left reader.message.now reader.at) };

    ghost remaining = { item_count (λ reader. fields_left reader.message.now reader.at) };

    fn next(&mut self) -> Option<(&'a [u8], &'a [u8])> {
        if self.at_end() {
            return None;
        }
        // One reading of the lengths for name, value and place.
        let message = self.message;
        match next(message, self.at) {
            Ok(Field { name, value }) => {
                self.at = value.end;
                Some((bytes_of(message, name), bytes_of(message, value)))
            }
            Err(_) => {
                self.at = message.len();
                Some((&[], &[]))
            }
        }
    }
}
