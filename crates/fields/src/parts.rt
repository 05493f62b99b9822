// Parts of a message behind their length.
ghost use Rattle.std.specs.Prelude.{◌≡◌, take, drop};
ghost use Rattle.fields.specs.Parts.{bytes_of, prefixed_at, judged};

use crate::fault::BadMessage;
use wire::span::Span;

// A length at an offset and as many bytes behind it; where they do not lie whole in the bytes, the place given is wrong.
#[tactic(auto, unfolding(crate::specs::Parts::prefixed_at))]
pub fn prefixed(bytes: &[u8], at: usize, place: usize) -> Result<Span, BadMessage>
    ensures { result ≡ prefixed_at bytes.now at place }
{
    let bad = BadMessage { place };
    let size = integers::read(bytes, at).ok_or(bad)?;
    if ((bytes.len() - size.end) as u64) < size.value {
        return Err(bad);
    }
    Ok(Span {
        start: size.end,
        end: size.end + (size.value as usize),
    })
}

// The message up to an offset, or all of it where it is shorter.
pub fn up_to(message: &[u8], end: usize) -> &[u8]
    ensures { result.now ≡ take end message.now }
{
    &message[..end.min(message.len())]
}

// The message from an offset on; nothing where it is shorter.
pub fn rest_from(message: &[u8], start: usize) -> &[u8]
    ensures { result.now ≡ drop start message.now }
{
    message.get(start..).unwrap_or(&[])
}

// The bytes of a part, as far as they lie in the message.
pub fn bytes_of(message: &[u8], span: Span) -> &[u8]
    ensures { result.now ≡ bytes_of message.now span }
{
    let rest = rest_from(message, span.start);
    let count = span.end.saturating_sub(span.start);
    up_to(rest, count)
}

// A part that was judged: a place before its end is wrong.
pub fn judge(span: Span, place: usize) -> Result<Span, BadMessage>
    ensures { result ≡ judged span place }
{
    if place < span.end {
        return Err(BadMessage { place });
    }
    Ok(span)
}
