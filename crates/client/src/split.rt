// The two parts of a response.
ghost use Rattle.std.specs.Prelude.{◌≡◌, length};
ghost use Rattle.client.specs.Split.{split_answer, nonce_part, ciphertext_part};

use algorithms::Aead;
use wire::refusal::{Reason, Refusal};

// The longest plain response.
const LONGEST_PLAIN: usize = 65536;

// The checking entry: where the nonce ends and the ciphertext starts, or 6, 1, 2.
#[tactic(auto, using(crate::proofs::Parts::answers))]
pub fn check(aead: Aead, response: &[u8]) -> Result<usize, Refusal>
    ensures { result ≡ split_answer aead.0 (length response.now) }
{
    let nonce = aead.response_nonce_length().ok_or(Reason::PairNotOffered)?;
    if response.len() < nonce + Aead::TAG_LENGTH {
        return Err(Refusal::from(Reason::TooShort));
    }
    if nonce + LONGEST_PLAIN + Aead::TAG_LENGTH < response.len() {
        return Err(Refusal::from(Reason::TooLong));
    }
    Ok(nonce)
}

// The nonce, empty exactly where `check` refuses.
pub fn nonce(aead: Aead, response: &[u8]) -> &[u8]
    ensures { result.now ≡ nonce_part response.now (split_answer aead.0 (length response.now)) }
{
    match check(aead, response) {
        Ok(at) => &response[..at],
        Err(_) => &response[..0],
    }
}

// The ciphertext with its tag, empty exactly where `check` refuses.
pub fn ciphertext(aead: Aead, response: &[u8]) -> &[u8]
    ensures { result.now ≡ ciphertext_part response.now (split_answer aead.0 (length response.now)) }
{
    match check(aead, response) {
        Ok(at) => &response[at..],
        Err(_) => &response[..0],
    }
}
