// Key lists (01, "Key list"; RFC 9458, 3.1 and 3.2): check and key reader.
#![tactic(auto)]

pub mod check;
pub mod key;

use wire::span::Span;

// 01's key id: the first byte of a configuration and of a request.
#[repr(C)]
#[derive(Clone, Copy, Debug, PartialEq, Eq)]
pub struct KeyId(pub u8);

// A pair of KDF and AEAD.
#[repr(C)]
#[derive(Clone, Copy, Debug, PartialEq, Eq)]
pub struct Pair {
    pub kdf: u16,
    pub aead: u16,
}

// How many configurations were read and how many skipped.
#[derive(Clone, Copy, Debug, PartialEq, Eq)]
pub struct Counts {
    pub read: usize,
    pub skipped: usize,
}

// The fields of one configuration, where its key lies, with its pairs two bytes behind it, and where the next one that is read starts.
#[derive(Clone, Copy)]
pub struct Place {
    pub key_id: u8,
    pub kem: u16,
    pub key: Span,
    pub next: usize,
}
