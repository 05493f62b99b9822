// What the library takes for its structs, so that a host's declarations can be held against it.
ghost use Rattle.std.specs.Prelude.{◌≡◌};
ghost use Rattle.host.specs.Sizes.{sizes, message_sizes};

// The number of bytes of each struct: the gateway, the outcome, and the result of each call by its name.
#[repr(C)]
#[derive(Clone, Copy)]
pub struct Sizes {
    pub gateway: usize,
    pub outcome: usize,
    pub setup: usize,
    pub admit: usize,
    pub open: usize,
    pub respond: usize,
    pub report: usize,
    pub check: usize,
    pub key: usize,
    pub write: usize,
    pub choose: usize,
    pub head: usize,
    pub split: usize,
    pub exporter: usize,
}

// The same of the calls on messages.
#[repr(C)]
#[derive(Clone, Copy)]
pub struct MessageSizes {
    pub request: usize,
    pub request_part: usize,
    pub next_field: usize,
}

// An outcome alone, and with one number or two behind it.
const OUTCOME: usize = 24;

const NUMBER: usize = OUTCOME + 8;

const TWO_NUMBERS: usize = OUTCOME + 16;

// With the eight parts of a request and two counts, and with a field and a place.
const REQUEST: usize = OUTCOME + 144;

const FIELD: usize = OUTCOME + 40;

#[unsafe(no_mangle)]
pub extern "C" fn sealwax_sizes() -> Sizes
    ensures { result ≡ sizes }
{
    Sizes {
        gateway: 4304,
        outcome: OUTCOME,
        setup: NUMBER,
        admit: 72,
        open: NUMBER,
        respond: NUMBER,
        report: 240,
        check: TWO_NUMBERS,
        key: TWO_NUMBERS,
        write: NUMBER,
        choose: 48,
        head: NUMBER,
        split: TWO_NUMBERS,
        exporter: TWO_NUMBERS,
    }
}

#[unsafe(no_mangle)]
pub extern "C" fn sealwax_message_sizes() -> MessageSizes
    ensures { result ≡ message_sizes }
{
    MessageSizes {
        request: REQUEST,
        request_part: TWO_NUMBERS,
        next_field: FIELD,
    }
}
