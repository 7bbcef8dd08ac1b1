// A look through the bytes of block records: whether each record is whole and right, and what its levels add up to, with nothing unpacked. What
// reading and the totals stand on. The crate `format` says what records are.
#![tactic(auto)]

mod bytes;
mod file;
mod levels;
mod record;

pub use bytes::{number_at, of_word};
pub use file::{Checked, check_records};
pub use levels::Levels;
pub use record::{Damaged, Record, Whole, check_record, judge_record, size_of};
