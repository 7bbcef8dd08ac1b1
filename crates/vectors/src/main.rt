// Replays the records of data/answers, most of them the Rust's answers, and prints how many there are, or the first that differs. No Rust is needed.
//
// The list was written by the comparison's driver, which calls the Rust itself:
//     cd compare && cargo run --release -- vectors > ../crates/vectors/data/answers
// A line is a record: decimal whole numbers, one space apart. Its kind, how many numbers follow, and these; compare/src/vectors/mod.rs has
// a table of them by kind.
#![tactic(auto)]

mod quantizer;
mod record;
mod transforms;

use std::io::Read;
use std::{fs, io};
use text::{Number, Words};

// Whether the library gives what the record says, and the record says nothing else.
fn is_same(kind: u64, numbers: &[Number]) -> bool {
    match kind {
        1 => transforms::kernel(numbers),
        2 => transforms::shifts(numbers),
        3 => transforms::scale(numbers),
        4 => transforms::pass(numbers),
        5 => transforms::block(numbers),
        6 => transforms::wht(numbers),
        7 => quantizer::step(numbers),
        8 => quantizer::levels(numbers),
        9 => quantizer::place(numbers),
        _ => false,
    }
}

// The digits that a word begins with, behind a minus or none, as a number: of a kind that is no number, they are what is told.
fn kind_of(word: &[u8]) -> u64 {
    let digits = word.strip_prefix(b"-").unwrap_or(word);
    let end = digits
        .iter()
        .position(|b| !b.is_ascii_digit())
        .unwrap_or(digits.len());
    Number::parse(&digits[..end]).map_or(0, |number| number.size)
}

// Record by record, up to the end or the first difference.
fn replay(rt: &impl Print, list: &[u8]) -> io::Result<()> {
    let mut words = Words { left: list };
    let mut numbers = [Number::ZERO; 4608];
    for count in 0..65536u64 {
        let Some(word) = words.next() else {
            return println!(rt; "{count} records, no difference");
        };
        let kind = kind_of(word);
        let same = match (Number::parse(word), record::read(&mut words, &mut numbers)) {
            (Some(_), Some(count)) => is_same(kind, &numbers[..count]),
            _ => false,
        };
        if !same {
            let record = count + 1;
            return println!(rt; "record {record}, of kind {kind}, differs or can't be read");
        }
    }
    println!(rt; "the list has more than 65536 records")
}

// Replays what the source has, as much as list has room for.
fn replay_all<const N: usize>(
    rt: &impl Print,
    source: &mut impl Read,
    list: &mut [u8; N],
) -> io::Result<()> {
    let n = text::read_full(source, list)?;
    replay(rt, &list[..n])
}

fn main(rt: HostRuntime) -> io::Result<()> {
    let mut list = [0u8; 655360];
    replay_all(&rt, &mut fs::open(&rt, "answers")?, &mut list)
}
