#![tactic(auto)]

// Block records on disk: what a list of blocks is in bytes, and what bytes are as a list of blocks. There is no code here: specs/ has the
// definitions and the theorems, proofs/ their proofs. The crate `records` reads and writes.
