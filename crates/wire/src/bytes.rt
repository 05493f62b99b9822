// Reads and writes at an offset. Each has an answer for every offset: 0 past the end, and no write there.
ghost use Rattle.std.specs.Prelude.{◌≡◌};
ghost use Rattle.wire.specs.Bytes.{byte_at, word_at};
ghost use Rattle.wire.specs.Helpers.{overwritten};

// The byte at an offset, 0 past the end.
pub fn byte_at(bytes: &[u8], at: usize) -> u8
    ensures { result ≡ byte_at bytes.now at }
{
    bytes.get(at).copied().unwrap_or(0)
}

// The big-endian number of the two bytes at an offset; a byte past the end counts as 0.
pub fn word_at(bytes: &[u8], at: usize) -> u16
    ensures { result ≡ word_at bytes.now at }
{
    if at < bytes.len() {
        u16::from_be_bytes([byte_at(bytes, at), byte_at(bytes, at + 1)])
    } else {
        0
    }
}

// Writes bytes from an offset of a buffer, as many as there is room for; the rest stays.
pub fn overwrite(buffer: &mut [u8], at: usize, bytes: &[u8])
    ensures { buffer.new ≡ overwritten buffer.old at bytes.now }
{
    if buffer.len() < at {
        return;
    }
    let count = bytes.len().min(buffer.len() - at);
    // Byte by byte: `copy_from_slice` may call memmove, which the library takes from nobody.
    for done in 0..count {
        buffer[at + done] = bytes[done];
    }
}
