// The reader of block records. The crate `format` says what records are, `look` whether they are right.
#![tactic(auto)]

mod read;

pub use read::read_records;
