// What a line says: the name of a call, its numbers and its bytes. To add a line: its name and the kinds of its words, here; and the function that makes the
// call and puts the answer: in `gateway_lines` for a call on the gateway, with its case of `Call` and of the definition in specs/, else in `client_lines` or
// `message_lines`.
use crate::input::MOST_LINE;
use crate::parts::Span;
use crate::words::Words;

// The names of the calls.
#[derive(Clone, Copy, PartialEq, Eq)]
pub(crate) enum Name {
    Setup,
    Admit,
    Open,
    Respond,
    Abandon,
    Retire,
    Report,
    Engine,
    Check,
    Key,
    Choose,
    Head,
    Split,
    Exporter,
    Request,
    Write,
}

impl Name {
    fn of(text: &[u8]) -> Option<Self> {
        match text {
            b"setup" => Some(Name::Setup),
            b"admit" => Some(Name::Admit),
            b"open" => Some(Name::Open),
            b"respond" => Some(Name::Respond),
            b"abandon" => Some(Name::Abandon),
            b"retire" => Some(Name::Retire),
            b"report" => Some(Name::Report),
            b"engine" => Some(Name::Engine),
            b"check" => Some(Name::Check),
            b"key" => Some(Name::Key),
            b"choose" => Some(Name::Choose),
            b"head" => Some(Name::Head),
            b"split" => Some(Name::Split),
            b"exporter" => Some(Name::Exporter),
            b"request" => Some(Name::Request),
            b"write" => Some(Name::Write),
            _ => None,
        }
    }

    // The kinds of the call's words.
    fn kinds(self) -> &'static [Kind] {
        match self {
            Name::Setup => &[Kind::Number, Kind::Bytes],
            Name::Admit => &[Kind::Bytes, Kind::Room],
            Name::Open => &[Kind::Number, Kind::Opening, Kind::Number],
            Name::Respond => &[
                Kind::Number,
                Kind::Bytes,
                Kind::Bytes,
                Kind::Number,
                Kind::Room,
            ],
            Name::Abandon => &[Kind::Number],
            Name::Retire => &[Kind::KeyId],
            Name::Report => &[],
            Name::Engine => &[Kind::Engine],
            Name::Check | Name::Request => &[Kind::Bytes],
            Name::Key => &[Kind::Bytes, Kind::KeyId],
            Name::Choose => &[Kind::Bytes, Kind::Codes, Kind::Codes],
            Name::Head => &[
                Kind::KeyId,
                Kind::Code,
                Kind::Code,
                Kind::Code,
                Kind::Bytes,
                Kind::Room,
                Kind::Room,
            ],
            Name::Split => &[Kind::Code, Kind::Bytes],
            Name::Exporter => &[Kind::Code, Kind::Room],
            Name::Write => &[Kind::ListRoom],
        }
    }
}

// The kinds of words.
#[derive(Clone, Copy)]
pub(crate) enum Kind {
    // Numbers: of 64 bits, a key id, a room, the list writer's room.
    Number,
    KeyId,
    Room,
    ListRoom,
    // How opening went, as `ok` or `failed`.
    Opening,
    // An engine, as `fast` or `plain`.
    Engine,
    // A KEM, KDF or AEAD number.
    Code,
    // Bytes: a request, a response, a list, an enc, a nonce or a message; a public key; numbers of two bytes each; a key's pairs of these.
    Bytes,
    KeyBytes,
    Codes,
    KeyCodes,
}

// The kinds of the words of a configuration, as many of which as there are stand behind those of `write`.
pub(crate) const CONFIGURATION: &[Kind] = &[
    Kind::KeyId,
    Kind::Code,
    Kind::KeyBytes,
    Kind::KeyCodes,
];

// What a word says.
enum Word {
    Number(u64),
    Part(Span),
    // One of two texts: it is the first.
    IsFirst(bool),
}

// Takes a word of a kind.
fn take(words: &mut Words<'_>, kind: Kind) -> Option<Word> {
    match kind {
        Kind::Number => words.number(u64::MAX).map(Word::Number),
        Kind::KeyId => words.number(255).map(Word::Number),
        Kind::Room => words.number(256).map(Word::Number),
        Kind::ListRoom => words.number(4096).map(Word::Number),
        Kind::Opening => words.one_of(b"ok", b"failed").map(Word::IsFirst),
        Kind::Engine => words.one_of(b"fast", b"plain").map(Word::IsFirst),
        Kind::Code => words.code().map(Word::Number),
        Kind::Bytes => words.bytes(70000).map(Word::Part),
        Kind::KeyBytes => words.bytes(255).map(Word::Part),
        Kind::Codes => words.codes(usize::MAX).map(Word::Part),
        Kind::KeyCodes => words.codes(80).map(Word::Part),
    }
}

// The name of a call, and what its words say: the numbers in order, where the bytes lie in order, and of a text whether it is the first of its kind. The next
// word starts at `next`.
#[derive(Clone, Copy)]
pub(crate) struct Line {
    pub name: Name,
    pub numbers: [u64; 6],
    number_count: usize,
    pub parts: [Span; 3],
    part_count: usize,
    pub is_first: bool,
    pub next: usize,
}

impl Line {
    // A line whose words are of kinds.
    pub(crate) fn of(name: Name, kinds: &[Kind], words: &mut Words<'_>) -> Option<Self> {
        let mut line = Line {
            name,
            numbers: [0; 6],
            number_count: 0,
            parts: [Span { start: 0, end: 0 }; 3],
            part_count: 0,
            is_first: false,
            next: 0,
        };
        for kind in kinds {
            line.add(take(words, *kind)?);
        }
        line.next = words.at;
        Some(line)
    }

    fn add(&mut self, word: Word) {
        match word {
            Word::Number(number) => {
                if self.number_count < self.numbers.len() {
                    self.numbers[self.number_count] = number;
                    self.number_count += 1;
                }
            }
            Word::Part(part) => {
                if self.part_count < self.parts.len() {
                    self.parts[self.part_count] = part;
                    self.part_count += 1;
                }
            }
            Word::IsFirst(is_first) => self.is_first = is_first,
        }
    }

    // Reads a line, and decodes its bytes where they lie; none where it is no call. Behind the words of `write` there may be more.
    pub(crate) fn read(bytes: &mut [u8]) -> Option<Self> {
        if MOST_LINE < bytes.len() {
            return None;
        }
        let mut words = Words { line: bytes, at: 0 };
        let name = Name::of(words.text()?.of(words.line))?;
        let line = Line::of(name, name.kinds(), &mut words)?;
        if words.are_taken() || name == Name::Write {
            Some(line)
        } else {
            None
        }
    }
}
