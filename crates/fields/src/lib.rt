// Field sections of binary HTTP (RFC 9292, 3.6) in 02, A3's profile: octet classes, parts behind their length, fields, and a reader that walks them.
#![tactic(auto)]

pub mod fault;
pub mod field;
pub mod octets;
pub mod parts;
pub mod reader;
