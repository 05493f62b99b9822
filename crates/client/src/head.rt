// The head of a request and its info.
ghost use Rattle.std.specs.Prelude.{◌≡◌, length};
ghost use Rattle.client.specs.Head.{head_refusal, head_does};
ghost use Rattle.client.specs.Helpers.{number_of_check};

use algorithms::{Aead, Kdf, Kem, is_known_pair};
use keylist::KeyId;
use wire::bytes::overwrite;
use wire::refusal::{Reason, Refusal};
use wire::texts;

// Writes the head of a request and its info, each at the front of its buffer, and answers the head's length, or refuses and writes nothing.
pub fn write(
    key_id: KeyId,
    kem: Kem,
    kdf: Kdf,
    aead: Aead,
    enc: &[u8],
    head: &mut [u8],
    info: &mut [u8],
) -> Result<usize, Refusal>
    ensures { let done = head_does key_id.0 kem.0 kdf.0 aead.0 enc.now head.old info.old in
        (result ≡ done.answer) × (head.new ≡ done.head) × (info.new ≡ done.info) }
{
    check(kem, kdf, aead, enc, head.len(), info.len())?;
    let front = texts::head(key_id.0, kem.0, kdf.0, aead.0);
    overwrite(head, 0, &front);
    overwrite(head, texts::HEAD_LENGTH, enc);
    let context = texts::info(front);
    overwrite(info, 0, &context);
    Ok(texts::HEAD_LENGTH + enc.len())
}

// The first refusal that applies.
#[tactic(auto, using(crate::proofs::Fronts::unknown_kem))]
fn check(
    kem: Kem,
    kdf: Kdf,
    aead: Aead,
    enc: &[u8],
    head_room: usize,
    info_room: usize,
) -> Result<(), Reason>
    ensures { number_of_check result ≡ head_refusal kem.0 kdf.0 aead.0 enc.now head_room info_room }
{
    let size = kem.enc_length().ok_or(Reason::UnknownKem)?;
    if !is_known_pair(kdf, aead) {
        return Err(Reason::PairNotOffered);
    }
    if enc.len() != size {
        return Err(Reason::WrongLength);
    }
    if head_room < texts::HEAD_LENGTH + size {
        return Err(Reason::NoRoom);
    }
    if info_room < texts::INFO_LENGTH {
        return Err(Reason::NoRoom);
    }
    Ok(())
}
