// What hosts in C, Rust and Go link: the gateway's setup and six calls over a gateway in the host's own memory, and the calls on key
// lists, on messages, for clients and for the exporter. Each export is a call of a library, whose answer it hands on as a plain struct.
#![tactic(auto)]

pub mod client_calls;
pub mod gateway_calls;
pub mod list_calls;
pub mod message_calls;
pub mod sizes;
pub mod table;
