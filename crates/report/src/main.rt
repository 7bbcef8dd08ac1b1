// The report of a record file for the catalogue: the file comes from standard input, and its totals, or the number of its refusal, go to standard
// output.
#![tactic(auto)]

mod wording;

use std::io;

// A file is read up to one byte more than it may have; the longest text has 87 bytes.
fn main(rt: HostRuntime) -> io::Result<()> {
    let mut bytes = [0u8; 65537];
    let file = match text::read_full(&mut rt.reader(), &mut bytes) {
        Ok(count) => Some(&bytes[..count]),
        Err(_) => None,
    };
    let mut text = [0u8; 96];
    let n = wording::put_report(file, &mut text);
    rt.write_all(&text[..n])
}
