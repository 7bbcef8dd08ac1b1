// The writer of block records. The crate `format` says what records are.
#![tactic(auto)]

mod admit;
mod write;

pub use write::write_records;
