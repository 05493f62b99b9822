// What hosts get of the libraries' answers: each as a plain struct that begins with its outcome, by a conversion from the answer.
#![tactic(auto)]

pub mod client_calls;
pub mod gateway_calls;
pub mod message_calls;
pub mod outcome;
