// A request (01, "Request"): its fields, where its parts lie, and the refusals that it decides alone.
#![tactic(auto)]

ghost use Rattle.std.specs.Prelude.{◌≡◌, replicate};
ghost use Rattle.wire.specs.Helpers.{overwritten};
ghost use Rattle.wire.specs.Texts.{head_length, info_bytes};
ghost use Rattle.request.specs.Helpers.{parsed};

use algorithms::{Aead, Kem};
use keylist::KeyId;
use wire::bytes::{byte_at, overwrite, word_at};
use wire::refusal::{Reason, Refusal};
use wire::texts;

// The most bytes of a request.
pub const LONGEST: usize = 65536;

// The fields of a request. Its enc ends, and its ciphertext starts, at `enc_end`.
#[derive(Clone, Copy)]
pub struct Request {
    pub key_id: KeyId,
    pub kem: u16,
    pub kdf: u16,
    pub aead: u16,
    pub enc_end: usize,
    pub ciphertext_length: u32,
}

// Reads a request. Nenc is that of its own KEM: no key is looked at. The table is asked once.
#[tactic(auto, using(crate::proofs::Requests::readings))]
pub fn read(request: &[u8]) -> Result<Request, Refusal>
    ensures { result ≡ parsed request.now }
{
    if LONGEST < request.len() {
        return Err(Refusal::from(Reason::TooLong));
    }
    if request.len() < texts::HEAD_LENGTH {
        return Err(Refusal::from(Reason::TooShort));
    }
    let kem = word_at(request, 1);
    let shortest = Kem(kem).shortest_request().ok_or(Reason::UnknownKem)?;
    if request.len() < shortest {
        return Err(Refusal::from(Reason::TooShort));
    }
    let enc_end = shortest - Aead::TAG_LENGTH;
    Ok(Request {
        key_id: KeyId(byte_at(request, 0)),
        kem,
        kdf: word_at(request, 3),
        aead: word_at(request, 5),
        enc_end,
        ciphertext_length: (request.len() - enc_end) as u32,
    })
}

// Info, of the first 7 bytes of a request; a byte that is not there counts as 0.
pub fn info(request: &[u8]) -> [u8; texts::INFO_LENGTH]
    ensures { result ≡ info_bytes (overwritten (replicate head_length 0) 0 request.now) }
{
    let mut head = [0u8; texts::HEAD_LENGTH];
    overwrite(&mut head, 0, request);
    texts::info(head)
}
