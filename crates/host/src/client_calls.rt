// The client's side: choose, head, the split's lengths; and for both sides the exporter context.
ghost use Rattle.std.specs.Prelude.{◌≡◌, length};
ghost use Rattle.wire.specs.Refusals.{written};
ghost use Rattle.wire.specs.Exporter.{exporter_context};
ghost use Rattle.keylist.specs.Layout.{parse};
ghost use Rattle.client.specs.Choose.{choose_from};
ghost use Rattle.client.specs.Head.{head_does};
ghost use Rattle.client.specs.Split.{split_answer};
ghost use Rattle.results.specs.Client.{choose_result, split_result, exporter_refusal, exporter_lengths, exporter_result};
ghost use Rattle.results.specs.Outcome.{number_result};

use algorithms::{Aead, Kdf, Kem};
use client::choose::choose;
use client::{head, split};
use keylist::KeyId;
use results::client_calls;
use results::client_calls::{ChooseResult, split_result};
use results::outcome::{NumberResult, TwoNumbersResult};

// Choose: 18 to 22 with their place, 13, 16.
#[unsafe(no_mangle)]
pub extern "C" fn sealwax_choose(list: &[u8], kems: &[u16], pairs: &[u16]) -> ChooseResult
    ensures { result ≡ choose_result (choose_from kems.now pairs.now (parse list.now)) }
{
    choose(list, kems, pairs).into()
}

// Head: writes the head of a request and its info, each at the front of its buffer, and answers the length of the head; 3, 6, 13, 14.
#[unsafe(no_mangle)]
pub extern "C" fn sealwax_head(
    key_id: u8,
    kem: u16,
    kdf: u16,
    aead: u16,
    enc: &[u8],
    head: &mut [u8],
    info: &mut [u8],
) -> NumberResult
    ensures { let done = head_does key_id kem kdf aead enc.now head.old info.old in
        (result ≡ number_result done.answer) × (head.new ≡ done.head) × (info.new ≡ done.info) }
{
    head::write(
        KeyId(key_id),
        Kem(kem),
        Kdf(kdf),
        Aead(aead),
        enc,
        head,
        info,
    )
    .into()
}

// The lengths of a response's two parts, nonce and ciphertext: 6, 1, 2.
#[unsafe(no_mangle)]
pub extern "C" fn sealwax_split(aead: u16, response: &[u8]) -> TwoNumbersResult
    ensures { result ≡ split_result (length response.now) (split_answer aead (length response.now)) }
{
    split_result(split::check(Aead(aead), response), response.len())
}

// The exporter context, at the front of a buffer: its length, and that of the secret that an AEAD's response asks for; 6, 14.
#[unsafe(no_mangle)]
pub extern "C" fn sealwax_exporter(aead: u16, context: &mut [u8]) -> TwoNumbersResult
    ensures result { result ≡ exporter_result (exporter_lengths aead (length context.old)) }
    ensures buffer { context.new ≡ written
        (exporter_refusal aead (length context.old)) exporter_context context.old }
{
    client_calls::exporter(aead, context).into()
}
