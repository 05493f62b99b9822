// What a known-length message has behind its control data.
ghost use Rattle.std.specs.Prelude.{◌≡◌, length, Ok};
ghost use Rattle.fields.specs.Parts.{◌and_then◌};
ghost use Rattle.integers.specs.Integers.{integer_at};
ghost use Rattle.std.specs.List.{position};
ghost use Rattle.wire.specs.Search.{first_from};
ghost use Rattle.bhttp.specs.Contents.{contents_at, framed, is_other, optional_at, padding_at, section_at};
ghost use Rattle.bhttp.specs.Answers.{counted, layout_of};

use fields::fault::BadMessage;
use fields::field::count;
use fields::parts::{judge, prefixed, rest_from, up_to};
use wire::span::Span;

// Where a field section lies, and how many fields it has.
#[repr(C)]
#[derive(Clone, Copy, Debug, Default, PartialEq, Eq)]
pub struct Section {
    pub lies: Span,
    pub fields: usize,
}

// Where header section, content, trailer section and padding lie.
#[repr(C)]
#[derive(Clone, Copy, Debug, Default, PartialEq, Eq)]
pub struct Layout {
    pub headers: Section,
    pub content: Span,
    pub trailers: Section,
    pub padding: Span,
}

// Where the framing indicator lies, if it is this one.
pub fn framing(message: &[u8], wanted: u64) -> Result<Span, BadMessage>
    ensures { result ≡ framed wanted (integer_at message.now 0) (length message.now) }
{
    let place = message.len();
    let framing = integers::read(message, 0).ok_or(BadMessage { place })?;
    if framing.value != wanted {
        return Err(BadMessage { place: 0 });
    }
    Ok(Span {
        start: 0,
        end: framing.end,
    })
}

// A part that may be missing where the message ends.
#[tactic(auto, unfolding(crate::specs::Contents::optional_at))]
fn optional(message: &[u8], at: usize) -> Result<Span, BadMessage>
    ensures { result ≡ optional_at message.now at }
{
    if message.len() <= at {
        return Ok(Span { start: at, end: at });
    }
    prefixed(message, at, message.len())
}

#[tactic(auto, unfolding(crate::specs::Contents::section_at))]
fn read_section(message: &[u8], at: usize) -> Result<Section, BadMessage>
    ensures { result ≡ (section_at message.now at and_then (λ section. Ok (counted section))) }
{
    let lies = optional(message, at)?;
    let fields = count(up_to(message, lies.end), lies.start)?;
    Ok(Section { lies, fields })
}

// Where the first byte that is not 0 stands.
fn position_of_other(message: &[u8]) -> Option<usize>
    ensures { result ≡ position is_other message.now }
{
    message.iter().position(|byte| *byte != 0)
}

// The first byte from an offset on that is not 0; the end where there is none. One function for this and `fields::octets::first_below` would
// need clauses on its test, and each of them has two lines.
#[tactic(auto, using(fields::proofs::Places::first_place_found))]
fn first_other(message: &[u8], from: usize) -> usize
    ensures { result ≡ first_from is_other message.now from }
{
    let rest = rest_from(message, from);
    from + position_of_other(rest).unwrap_or(rest.len())
}

#[tactic(auto, unfolding(crate::specs::Contents::padding_at))]
fn padding(message: &[u8], at: usize) -> Result<Span, BadMessage>
    ensures { result ≡ padding_at message.now at }
{
    let span = Span {
        start: at,
        end: message.len(),
    };
    judge(span, first_other(message, at))
}

// All that lies behind the control data.
#[tactic(auto, unfolding(crate::specs::Contents::contents_at))]
pub fn read_layout(message: &[u8], at: usize) -> Result<Layout, BadMessage>
    ensures { result ≡ (contents_at message.now at and_then (λ contents. Ok (layout_of contents))) }
{
    let headers = read_section(message, at)?;
    let content = optional(message, headers.lies.end)?;
    let trailers = read_section(message, content.end)?;
    let padding = padding(message, trailers.lies.end)?;
    Ok(Layout {
        headers,
        content,
        trailers,
        padding,
    })
}
