// The known-length request.
ghost use Rattle.std.specs.Prelude.{◌≡◌};
ghost use Rattle.bhttp.specs.Request.{control_at, request_in};
ghost use Rattle.bhttp.specs.Answers.{checked, numbered, part_place, part_bytes};

use crate::contents::{Layout, framing, read_layout};
use fields::fault::BadMessage;
use fields::parts::{bytes_of, prefixed};
use wire::refusal::Refusal;
use wire::span::Span;

// Where the control data lie.
#[repr(C)]
#[derive(Clone, Copy, Debug, Default, PartialEq, Eq)]
pub struct Control {
    pub method: Span,
    pub scheme: Span,
    pub authority: Span,
    pub path: Span,
}

// Where the parts of a request lie.
#[repr(C)]
#[derive(Clone, Copy, Debug, Default, PartialEq, Eq)]
pub struct Request {
    pub control: Control,
    pub layout: Layout,
}

// The numbers of the parts. No enum: C passes them, and any other number is answered too.
pub const METHOD: u8 = 0;

pub const SCHEME: u8 = 1;

pub const AUTHORITY: u8 = 2;

pub const PATH: u8 = 3;

pub const HEADERS: u8 = 4;

pub const CONTENT: u8 = 5;

pub const TRAILERS: u8 = 6;

pub const PADDING: u8 = 7;

#[tactic(auto, unfolding(crate::specs::Request::control_at))]
fn read_control(message: &[u8], at: usize) -> Result<Control, BadMessage>
    ensures { result ≡ control_at message.now at }
{
    let end = message.len();
    let method = prefixed(message, at, end)?;
    let scheme = prefixed(message, method.end, end)?;
    let authority = prefixed(message, scheme.end, end)?;
    let path = prefixed(message, authority.end, end)?;
    Ok(Control {
        method,
        scheme,
        authority,
        path,
    })
}

// The checking entry: where the parts of a request lie, or 23 with its place.
#[tactic(auto, unfolding(crate::specs::Request::request_in))]
pub fn check(message: &[u8]) -> Result<Request, Refusal>
    ensures { result ≡ checked (request_in message.now) }
{
    let framing = framing(message, 0)?;
    let control = read_control(message, framing.end)?;
    let layout = read_layout(message, control.path.end)?;
    Ok(Request { control, layout })
}

// Where the part of a number lies; no part for any other number.
#[tactic(auto, unfolding(crate::specs::Answers::numbered))]
fn numbered(request: Request, number: u8) -> Span
    ensures { result ≡ numbered number request }
{
    let Request { control, layout } = request;
    let parts = [
        control.method,
        control.scheme,
        control.authority,
        control.path,
        layout.headers.lies,
        layout.content,
        layout.trailers.lies,
        layout.padding,
    ];
    parts.get(number as usize).copied().unwrap_or_default()
}

// Where the part of a number lies in a request, or 23 with its place.
pub fn find(message: &[u8], number: u8) -> Result<Span, Refusal>
    ensures { result ≡ part_place number (request_in message.now) }
{
    let request = check(message)?;
    Ok(numbered(request, number))
}

// The part itself; empty where `check` refuses, and where no part has the number.
pub fn part(message: &[u8], number: u8) -> &[u8]
    ensures { result.now ≡ part_bytes number message.now (request_in message.now) }
{
    match check(message) {
        Ok(request) => bytes_of(message, numbered(request, number)),
        Err(_) => &[],
    }
}
