// Binary HTTP messages of known length (RFC 9292, 3.1; 02, A3): the request, read.
#![tactic(auto)]

pub mod contents;
pub mod requests;
