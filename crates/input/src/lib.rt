// What a program is given on a stream, read into lent memory.
#![tactic(auto)]

ghost use Rattle.std.specs.Prelude.{◌≤◌, ◌<◌, IfOk, length, take};
ghost use Rattle.std.specs.Io.KnownBytes.{Consumes, IsAtEnd};

use std::io;
use std::io::Read;

// Reads until `space` is full or the stream ends, and answers how many octets then open `space`: they are what was read, and
// where they do not fill it, nothing is left. The error of a read that failed is passed on.
pub fn read_full<R: Read>(reader: &mut R, space: &mut [u8]) -> io::Result<usize>
    ensures bound { IfOk result (λ n. n ≤ length space.new) }
    ensures bytes { IfOk result (λ n. Consumes (R.remaining reader.old) (R.remaining reader.new) (take n space.new)) }
    ensures end { IfOk result (λ n. n < length space.new → IsAtEnd (R.remaining reader.new)) }
{
    let mut done = 0;
    while done < space.len() {
        let n = reader.read(&mut space[done..])?;
        if n == 0 {
            return Ok(done);
        }
        done += n;
    }
    Ok(done)
}
