#![tactic(auto)]
// What is promised: statements in specs/, their proofs in proofs/, no code.
