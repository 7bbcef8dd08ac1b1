// What the program writes.
use answer::Refusal;
use sizes::Size;
use std::{fmt, io};

// A refusal by its number and a word.
#[derive(Drop)]
pub struct Refused {
    pub why: Refusal,
}

// Document 01's word for 1 to 9, our own for document 02's.
fn word(why: Refusal) -> &'static str {
    match why {
        Refusal::BadSize => "gauge",
        Refusal::BadKind => "kind",
        Refusal::ShortBuffer => "short stock",
        Refusal::ResidualRange => "overdriven",
        Refusal::BatchRange => "off the line",
        Refusal::BatchOrder => "out of turn",
        Refusal::BadSetting => "bad setting",
        Refusal::ScanRange => "lost place",
        Refusal::CoefficientRange => "too dense",
        Refusal::CutRecord => "cut record",
        Refusal::BadRecord => "bad record",
        Refusal::RecordOrder => "record out of turn",
        Refusal::BadTile => "bad tile",
        Refusal::TileNotOpen => "tile not open",
        Refusal::BadFile => "bad file",
    }
}

impl fmt::Display for Refused {
    fn fmt<W: fmt::Write>(&self, f: &mut fmt::Formatter<W>) -> fmt::Result {
        let number = u32::from(self.why);
        let word = word(self.why);
        write!(f, "refused {number} {word}")
    }
}

// The first numbers of a table, row by row.
pub fn print_rows<T: fmt::Display>(
    rt: &impl Print,
    size: Size,
    numbers: &[T; 1024],
) -> io::Result<()> {
    for row in numbers[..size.places()].chunks_exact(size.w) {
        for number in row {
            print!(rt; "{number:>9}")?;
        }
        print!(rt; "\n")?;
    }
    Ok(())
}
