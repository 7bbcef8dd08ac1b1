#![tactic(auto)]

// Block records on disk, read and written: the reader gives back what the writer was handed, and the writer what the reader was. There is no code
// here: specs/ has the theorem, proofs/ its proof. The crates `reader` and `writer` have the calls.
