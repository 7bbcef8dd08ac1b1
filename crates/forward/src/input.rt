// What the program reads.
ghost use Rattle.std.specs.Prelude.{◌≤◌, IfOk};

use super::decimal;
use quant::Settings;
use std::fmt;
use text::{Number, Words};

// What a word should be.
#[derive(Clone, Copy)]
pub enum Wanted {
    Whole,
    Decimal,
    Residual,
}

// A word that is wrong, by its number, and what it should be.
#[derive(Clone, Copy)]
pub struct Wrong {
    pub word: usize,
    pub wanted: Wanted,
}

fn description(wanted: Wanted) -> &'static str {
    match wanted {
        Wanted::Whole => "a whole number from 0 to 4294967295",
        Wanted::Decimal => "a decimal number of at most 7 digits, such as 0.375",
        Wanted::Residual => "one of at most 1024 residuals, a whole number",
    }
}

impl fmt::Display for Wrong {
    fn fmt<W: fmt::Write>(&self, f: &mut fmt::Formatter<W>) -> fmt::Result {
        let word = self.word;
        let wanted = description(self.wanted);
        write!(f, "word {word} of the input should be {wanted}")
    }
}

// A block, what is asked of it, and how many residuals it has.
#[derive(Drop)]
pub struct Input {
    pub w: usize,
    pub h: usize,
    pub column_kind: u32,
    pub row_kind: u32,
    pub step: u32,
    pub settings: Settings,
    pub residuals: [i32; 1024],
    pub count: usize,
    ghost few: { count ≤ 1024 },
}

fn whole(words: &mut Words<'_>, word: usize) -> Result<u32, Wrong> {
    let wanted = Wanted::Whole;
    words
        .number()
        .and_then(Number::unsigned)
        .ok_or(Wrong { word, wanted })
}

fn decimal(words: &mut Words<'_>, word: usize) -> Result<f32, Wrong> {
    let wanted = Wanted::Decimal;
    words
        .next()
        .and_then(decimal::parse)
        .ok_or(Wrong { word, wanted })
}

fn settings(words: &mut Words<'_>) -> Result<Settings, Wrong> {
    Ok(Settings {
        factor: decimal(words, 6)?,
        threshold: decimal(words, 7)?,
        dead_zone: decimal(words, 8)?,
    })
}

// The residuals, up to the end of the input: how many.
fn residuals(words: &mut Words<'_>, residuals: &mut [i32; 1024]) -> Result<usize, Wrong>
    ensures { IfOk result (λ count. count ≤ 1024) }
{
    let wanted = Wanted::Residual;
    for i in 0..1024 {
        let Some(word) = words.next() else {
            return Ok(i);
        };
        let word = Number::parse(word).and_then(Number::signed);
        residuals[i] = word.ok_or(Wrong {
            word: 9 + i,
            wanted,
        })?;
    }
    match words.next() {
        None => Ok(1024),
        Some(_) => Err(Wrong { word: 1033, wanted }),
    }
}

pub fn read(text: &[u8]) -> Result<Input, Wrong> {
    let mut words = Words { left: text };
    let mut input = Input {
        w: whole(&mut words, 1)? as usize,
        h: whole(&mut words, 2)? as usize,
        column_kind: whole(&mut words, 3)?,
        row_kind: whole(&mut words, 4)?,
        step: whole(&mut words, 5)?,
        settings: settings(&mut words)?,
        residuals: [0i32; 1024],
        count: 0,
    };
    input.count = residuals(&mut words, &mut input.residuals)?;
    Ok(input)
}
