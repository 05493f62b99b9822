// The fields of a section. Each function is lent the message up to the section's end, so that every offset is one of the message.
ghost use Rattle.std.specs.Prelude.{◌≡◌};
ghost use Rattle.fields.specs.Fields.{name_fault, value_fault, name_at, value_at, field_at, count_in};
ghost use Rattle.fields.specs.Reader.{next_field};

use crate::fault::BadMessage;
use crate::octets::{BLANK, TEXT, TOKEN, class, first_below};
use crate::parts::{judge, prefixed, up_to};
use wire::span::Span;

// Where name and value of a field lie.
#[repr(C)]
#[derive(Clone, Copy, Debug, Default, PartialEq, Eq)]
pub struct Field {
    pub name: Span,
    pub value: Span,
}

// Where the name is wrong that ends with the bytes, its length at a place in front of it; the end where it is right.
#[tactic(auto, unfolding(crate::specs::Fields::name_fault))]
fn name_fault(bytes: &[u8], start: usize, length_place: usize) -> usize
    ensures { result ≡ name_fault bytes.now start length_place }
{
    if bytes.len() <= start {
        return length_place;
    }
    first_below(bytes, start, TOKEN)
}

// Where the value is wrong that ends with the bytes; the end where it is right.
#[tactic(auto, unfolding(crate::specs::Fields::value_fault))]
fn value_fault(bytes: &[u8], start: usize) -> usize
    ensures { result ≡ value_fault bytes.now start }
{
    if bytes.len() <= start {
        return bytes.len();
    }
    if class(bytes[start]) < TEXT {
        return start;
    }
    let wrong = first_below(bytes, start, BLANK);
    if wrong < bytes.len() {
        return wrong;
    }
    if class(bytes[bytes.len() - 1]) < TEXT {
        return bytes.len() - 1;
    }
    bytes.len()
}

// A name and a value, each by what judges it: one function over that would need more clauses than these have lines.
#[tactic(auto, unfolding(crate::specs::Fields::name_at))]
fn name(bytes: &[u8], at: usize) -> Result<Span, BadMessage>
    ensures { result ≡ name_at bytes.now at }
{
    let span = prefixed(bytes, at, at)?;
    let place = name_fault(up_to(bytes, span.end), span.start, at);
    judge(span, place)
}

#[tactic(auto, unfolding(crate::specs::Fields::value_at))]
fn value(bytes: &[u8], at: usize) -> Result<Span, BadMessage>
    ensures { result ≡ value_at bytes.now at }
{
    let span = prefixed(bytes, at, at)?;
    let place = value_fault(up_to(bytes, span.end), span.start);
    judge(span, place)
}

// The field at an offset, judged.
#[tactic(auto, unfolding(crate::specs::Fields::field_at))]
fn read(bytes: &[u8], at: usize) -> Result<Field, BadMessage>
    ensures { result ≡ field_at bytes.now at }
{
    let name = name(bytes, at)?;
    let value = value(bytes, name.end)?;
    Ok(Field { name, value })
}

// How many fields the section has that starts at an offset. The place moves by what each field's lengths say: it is no index of the bytes.
pub fn count(bytes: &[u8], start: usize) -> Result<usize, BadMessage>
    ensures { result ≡ count_in bytes.now start }
{
    let mut at = start;
    let mut fields = 0;
    while at < bytes.len() {
        at = read(bytes, at)?.value.end;
        fields += 1;
    }
    Ok(fields)
}

// The field at an offset by its lengths alone: what walks a section that was checked.
#[tactic(auto, unfolding(crate::specs::Reader::next_field))]
pub fn next(bytes: &[u8], at: usize) -> Result<Field, BadMessage>
    ensures { result ≡ next_field bytes.now at }
{
    let name = prefixed(bytes, at, at)?;
    let value = prefixed(bytes, name.end, name.end)?;
    Ok(Field { name, value })
}
