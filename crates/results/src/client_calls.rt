// The results of the client's side: of choose and of the split's lengths; head's is an outcome and a number. And for both sides the exporter context.
ghost use Rattle.std.specs.Prelude.{◌≡◌, length};
ghost use Rattle.wire.specs.Refusals.{written};
ghost use Rattle.wire.specs.Exporter.{exporter_context};
ghost use Rattle.results.specs.Client.{choose_result, split_result, exporter_refusal, exporter_lengths};

use crate::outcome::{Outcome, TwoNumbersResult};
use algorithms::Aead;
use client::choose::Choice;
use wire::bytes::overwrite;
use wire::refusal::{Reason, Refusal};
use wire::texts::exporter_context;

// The length of the exporter context.
const EXPORTER_CONTEXT_LENGTH: usize = 22;

// What was chosen, and where the public key starts and ends in the list.
#[repr(C)]
#[derive(Clone, Copy, Default)]
pub struct ChooseResult {
    pub outcome: Outcome,
    pub key_start: usize,
    pub key_end: usize,
    pub kem: u16,
    pub kdf: u16,
    pub aead: u16,
    pub key_id: u8,
}

// The exporter context, at the front of a buffer: its length, and that of the secret that an AEAD's response asks for; 6, 14.
pub fn exporter(aead: u16, context: &mut [u8]) -> Result<(usize, usize), Refusal>
    ensures result { result ≡ exporter_lengths aead (length context.old) }
    ensures buffer { context.new ≡ written
        (exporter_refusal aead (length context.old)) exporter_context context.old }
{
    let lengths = exporter_lengths(aead, context.len())?;
    overwrite(context, 0, &exporter_context());
    Ok(lengths)
}

// The two lengths, or the first refusal, of an AEAD and of the room for the context.
#[tactic(auto, unfolding(crate::specs::Client::exporter_refusal, wire::specs::Exporter::exporter_context, wire::specs::Texts::ascii))]
fn exporter_lengths(aead: u16, room: usize) -> Result<(usize, usize), Refusal>
    ensures { result ≡ exporter_lengths aead room }
{
    let secret_length = Aead(aead).secret_length().ok_or(Reason::PairNotOffered)?;
    if room < EXPORTER_CONTEXT_LENGTH {
        return Err(Reason::NoRoom.into());
    }
    Ok((EXPORTER_CONTEXT_LENGTH, secret_length))
}

// The lengths of the nonce and of what is left of a response behind it.
pub fn split_result(nonce_length: Result<usize, Refusal>, length: usize) -> TwoNumbersResult
    ensures { result ≡ split_result length nonce_length }
{
    nonce_length
        .map(|nonce| (nonce, length.saturating_sub(nonce)))
        .into()
}

impl From<Result<Choice, Refusal>> for ChooseResult {
    ghost from_gives = { λ answer result. result ≡ choose_result answer };

    fn from(answer: Result<Choice, Refusal>) -> ChooseResult {
        match answer {
            Ok(choice) => ChooseResult {
                outcome: Outcome::sends(0),
                key_start: choice.key.start,
                key_end: choice.key.end,
                kem: choice.kem,
                kdf: choice.pair.kdf,
                aead: choice.pair.aead,
                key_id: choice.key_id.0,
            },
            Err(refusal) => ChooseResult {
                outcome: refusal.into(),
                ..ChooseResult::default()
            },
        }
    }
}
