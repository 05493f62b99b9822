// What admit answers.
ghost use Rattle.std.specs.Prelude.{◌≡◌};
ghost use Rattle.keys.specs.Stored.{one_more};
ghost use Rattle.gateway.specs.Registry.{status_of, is_key_problem, refusal_of_admit, admission};

use exchange::Ticket;
use keylist::KeyId;
use request::Request;
use wire::refusal::Refusal;
use wire::texts;

// An admitted request: its ticket, its key, its pair, and where its parts start and end.
#[derive(Clone, Copy, Debug, PartialEq, Eq)]
pub struct Admission {
    pub ticket: Ticket,
    pub key_id: KeyId,
    pub kdf: u16,
    pub aead: u16,
    pub enc_start: usize,
    pub enc_end: usize,
    pub ciphertext_start: usize,
    pub ciphertext_end: usize,
}

// A refusal of admit: its number, the status of the unprotected answer, and whether that is an ohttp-key problem
// (RFC 9458, 5.3).
#[derive(Clone, Copy, Debug, PartialEq, Eq)]
pub struct AdmitRefusal {
    pub number: u8,
    pub status: u16,
    pub key_problem: bool,
}

impl Admission {
    pub(crate) fn of(ticket: Ticket, request: Request, length: usize) -> Self
        ensures { result ≡ admission ticket.0 request length }
    {
        Admission {
            ticket,
            key_id: request.key_id,
            kdf: request.kdf,
            aead: request.aead,
            enc_start: texts::HEAD_LENGTH,
            enc_end: request.enc_end,
            ciphertext_start: request.enc_end,
            ciphertext_end: length,
        }
    }
}

impl AdmitRefusal {
    // HTTP statuses.
    pub const BAD_REQUEST: u16 = 400;

    pub const CONTENT_TOO_LARGE: u16 = 413;

    pub const INTERNAL_SERVER_ERROR: u16 = 500;

    pub const SERVICE_UNAVAILABLE: u16 = 503;

    fn of(number: u8) -> Self
        ensures { result ≡ refusal_of_admit number }
    {
        AdmitRefusal {
            number,
            status: status(number),
            key_problem: is_key_problem(number),
        }
    }
}

impl From<Refusal> for AdmitRefusal {
    ghost from_gives = { λ refusal answer. answer ≡ refusal_of_admit refusal.number };

    fn from(refusal: Refusal) -> AdmitRefusal {
        AdmitRefusal::of(refusal.number)
    }
}

fn status(number: u8) -> u16
    ensures { result ≡ status_of number }
{
    match number {
        // too long
        2 => AdmitRefusal::CONTENT_TOO_LARGE,
        // the table is full
        9 => AdmitRefusal::SERVICE_UNAVAILABLE,
        // no room for info
        14 => AdmitRefusal::INTERNAL_SERVER_ERROR,
        _ => AdmitRefusal::BAD_REQUEST,
    }
}

// The refusals by the key, from one that is not there to one that is used up.
fn is_key_problem(number: u8) -> bool
    ensures { result ≡ is_key_problem number }
{
    4 <= number && number <= 8
}

// The ticket after the last one, which stays where it is the largest.
pub fn next_ticket(last: Ticket) -> Ticket
    ensures { result ≡ record { 0 = one_more 64 last.0 } }
{
    Ticket(last.0.saturating_add(1))
}
