// The text of a report.
ghost use Rattle.std.specs.Prelude.{◌≡◌, true, false, ◌+◌, ◌≤◌, [], length, MatchOption};
ghost use Rattle.io.specs.Counts.{IsPrefixLen};
ghost use Rattle.laws.specs.Store.{pasted};
ghost use Rattle.totals.specs.Totals.{reported};
ghost use Rattle.report.specs.Text.{line, file_report, PrintedAs};

use answer::Refusal;
use totals::Totals;

// The longest file that is read.
const LONGEST: usize = 65536;

// Puts a piece of text into out at a place. Gives back the place behind it.
fn put(out: &mut [u8], at: usize, piece: &[u8]) -> usize
    requires { at + length piece.now ≤ length out.old }
    ensures value { result ≡ at + length piece.now }
    ensures out_after { out.new ≡ pasted out.old at piece.now }
{
    let end = at + piece.len();
    out[at..end].copy_from_slice(piece);
    end
}

// Puts a line: a word, a number and the line's end.
fn put_line(out: &mut [u8], at: usize, word: &[u8], n: u64) -> usize
    requires { at + length word.now + 21 ≤ length out.old }
    ensures value { result ≡ at + length (line word.now n) }
    ensures out_after { out.new ≡ pasted out.old at (line word.now n) }
{
    let mut digits = [0u8; 20];
    let count = io::decimal(n, &mut digits);
    let number = put(out, at, word);
    let end = put(out, number, &digits[..count]);
    put(out, end, b"\n")
}

// The report of a file as it was read; there is none where a read failed.
#[tactic(auto, unfolding(crate::specs::Text::file_report))]
fn report(file: Option<&[u8]>) -> Result<Totals, Refusal>
    ensures { MatchOption file.entry (reported result ≡ file_report true []) (λ s. reported result ≡ file_report false s.now) }
{
    let file = file.ok_or(Refusal::BadFile)?;
    if file.len() > LONGEST {
        return Err(Refusal::BadFile);
    }
    totals::add_up(file)
}

// Puts the text of a report. Gives back its length.
fn put_text(report: Result<Totals, Refusal>, out: &mut [u8]) -> usize
    requires { 87 ≤ length out.old }
    ensures { PrintedAs (reported report) out.old result out.new }
{
    match report {
        Ok(t) => {
            let levels = put_line(out, 0, b"blocks ", t.blocks as u64);
            let magnitude = put_line(out, levels, b"levels ", t.levels);
            put_line(out, magnitude, b"magnitude ", t.magnitude)
        }
        Err(why) => put_line(out, 0, b"refused ", u64::from(u32::from(why))),
    }
}

// Puts into out what is printed of a file. Gives back the text's length.
pub fn put_report(file: Option<&[u8]>, out: &mut [u8]) -> usize
    requires { 87 ≤ length out.old }
    ensures prefix_len { IsPrefixLen result out.new }
    ensures text_after { MatchOption file.entry (PrintedAs (file_report true []) out.old result out.new) (λ s. PrintedAs (file_report false s.now) out.old result out.new) }
{
    put_text(report(file), out)
}
