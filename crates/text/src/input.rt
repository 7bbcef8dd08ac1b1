// Bytes from a file or a stream.
ghost use Rattle.std.specs.Prelude.{◌≤◌, IfOk, length};

use std::io;
use std::io::Read;

// Reads into buffer, up to the source's end or until buffer is full: how many bytes. A read may give fewer bytes than there is room for, so how many
// turns there are isn't known, and no `for` counts them.
pub fn read_full(source: &mut impl Read, buffer: &mut [u8]) -> io::Result<usize>
    ensures { IfOk result (λ n. n ≤ length buffer.new) }
{
    let mut count = 0;
    while count < buffer.len() {
        let more = source.read(&mut buffer[count..])?;
        if more == 0 {
            return Ok(count);
        }
        count += more;
    }
    Ok(count)
}
