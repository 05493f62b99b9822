// Messages inside: the check of a request, a part of it by its number, and the next field of a section.
ghost use Rattle.std.specs.Prelude.{◌≡◌};
ghost use Rattle.fields.specs.Reader.{next_field};
ghost use Rattle.bhttp.specs.Request.{request_in};
ghost use Rattle.bhttp.specs.Answers.{checked, part_place};
ghost use Rattle.results.specs.Outcome.{span_result};
ghost use Rattle.results.specs.Messages.{request_result, field_result};

use bhttp::requests::{check, find};
use fields::field::next;
use results::message_calls::{FieldResult, RequestResult};
use results::outcome::TwoNumbersResult;

// Where the parts of a request lie, and how many fields each section has: 23 with its place.
#[unsafe(no_mangle)]
pub extern "C" fn sealwax_request(message: &[u8]) -> RequestResult
    ensures { result ≡ request_result (checked (request_in message.now)) }
{
    check(message).into()
}

// Where the part of a number starts and ends in a request: 23 with its place.
#[unsafe(no_mangle)]
pub extern "C" fn sealwax_request_part(message: &[u8], part: u8) -> TwoNumbersResult
    ensures { result ≡ span_result (part_place part (request_in message.now)) }
{
    find(message, part).into()
}

// The field at a place of a section, by its lengths, in the message up to the section's end, and the place behind it: 23 with its place.
#[unsafe(no_mangle)]
pub extern "C" fn sealwax_next_field(message: &[u8], place: usize) -> FieldResult
    ensures { result ≡ field_result (next_field message.now place) }
{
    next(message, place).into()
}
