// The client side of Oblivious HTTP (01, "Client side"): key choice, the head of a request, and the split of a response.
#![tactic(auto)]

pub mod choose;
pub mod head;
pub mod split;
