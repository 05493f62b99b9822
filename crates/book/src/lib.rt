// 01's book, the theorems over whole lists of calls, and that client and gateway agree. There is no code to run: the definitions are in
// specs/, the proofs in proofs/.
#![tactic(auto)]
