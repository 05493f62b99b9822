// Bytes as RFC 9458 lays them out: reads that have an answer at every offset, writes that leave the rest of a buffer as it
// was, the fixed texts, and the refusal that every entry answers with.
#![tactic(auto)]

pub mod bytes;
pub mod refusal;
pub mod span;
pub mod texts;
