// RFC 9000's integers (section 16): 1, 2, 4 or 8 bytes, read at an offset of a slice.
#![tactic(auto)]

ghost use Rattle.std.specs.Prelude.{◌≡◌, ◌≤◌, length, IfSome};
ghost use Rattle.integers.specs.Integers.{size_of, integer_at};

// An integer that was read: its value, and where it ends.
#[derive(Clone, Copy, Debug, PartialEq, Eq)]
pub struct Integer {
    pub value: u64,
    pub end: usize,
}

// How many bytes the integer has that begins with this one. By tests: `1 << (first / 64)` made reading a message a tenth slower.
fn size_of(first: u8) -> usize
    ensures { result ≡ size_of first }
{
    if first < 64 {
        return 1;
    }
    if first < 128 {
        return 2;
    }
    if first < 192 {
        return 4;
    }
    8
}

// The integer at an offset; none where it does not lie whole in the bytes. Any size is accepted, whether the value needs it or not.
pub fn read(bytes: &[u8], at: usize) -> Option<Integer>
    ensures value { result ≡ integer_at bytes.now at }
    ensures inside { IfSome result (λ integer. integer.end ≤ length bytes.now) }
{
    let first = *bytes.get(at)?;
    let size = size_of(first);
    if bytes.len() - at < size {
        return None;
    }
    let rest = &bytes[at + 1..at + size];
    let mut value = (first % 64) as u64;
    for byte in rest {
        value = value * 256 + (*byte as u64);
    }
    Some(Integer {
        value,
        end: at + size,
    })
}
