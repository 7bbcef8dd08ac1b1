// What the programs read: bytes, the words of a text, and whole numbers.
#![tactic(auto)]

mod input;
mod number;
mod words;

pub use input::read_full;
pub use number::Number;
pub use words::Words;
