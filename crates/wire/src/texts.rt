// RFC 9458's fixed texts and what is made of them.
ghost use Rattle.std.specs.Prelude.{◌≡◌};
ghost use Rattle.wire.specs.Texts.{head_bytes, info_bytes};
ghost use Rattle.wire.specs.Exporter.{exporter_context};

use crate::bytes::overwrite;

// The bytes of a request before enc: key id, KEM, KDF, AEAD.
pub const HEAD_LENGTH: usize = 7;

// The length of info.
pub const INFO_LENGTH: usize = 29;

// The 21 bytes `message/bhttp request` and a zero byte.
const REQUEST_LABEL: [u8; 22] = *b"message/bhttp request\0";

// The bytes of the exporter context.
pub fn exporter_context() -> [u8; 22]
    ensures { result ≡ exporter_context }
{
    *b"message/bhttp response"
}

// The first 7 bytes of a request.
pub fn head(key_id: u8, kem: u16, kdf: u16, aead: u16) -> [u8; HEAD_LENGTH]
    ensures { result ≡ head_bytes key_id kem kdf aead }
{
    let [kem_high, kem_low] = kem.to_be_bytes();
    let [kdf_high, kdf_low] = kdf.to_be_bytes();
    let [aead_high, aead_low] = aead.to_be_bytes();
    [
        key_id, kem_high, kem_low, kdf_high, kdf_low, aead_high, aead_low,
    ]
}

// Info, of the first 7 bytes of a request.
pub fn info(head: [u8; HEAD_LENGTH]) -> [u8; INFO_LENGTH]
    ensures { result ≡ info_bytes head }
{
    let mut info = [0u8; INFO_LENGTH];
    overwrite(&mut info, 0, &REQUEST_LABEL);
    overwrite(&mut info, REQUEST_LABEL.len(), &head);
    info
}
