// Bytes from a reader to a buffer's end, and bytes and numbers to standard output. Internal: what the programs read and write by.
// A call that fails counts as one that moved nothing.
#![tactic(auto)]

ghost use Rattle.std.specs.Prelude.{take};
ghost use Rattle.std.specs.Counts.{IsPrefixLen};
ghost use Rattle.std.specs.Io.KnownBytes.{Consumes};

use std::fmt::Display;
use std::io::Read;

// Writes all bytes; answers whether that could be done. If not, some may have been written.
// Kept: a bool, here and below: no caller reads why a write failed, and most go on without it.
pub fn write_all(rt: &impl Print, bytes: &[u8]) -> bool {
    rt.write_all(bytes).is_ok()
}

// A value's text; answers as `write_all`.
pub fn print<T: Display + Drop>(rt: &impl Print, value: T) -> bool {
    rt.print(value).is_ok()
}

// Reads until the buffer is full, the input ends or a read fails; answers how many bytes stand at the buffer's start.
pub fn read_full<R: Read>(input: &mut R, buffer: &mut [u8]) -> usize
    ensures in_bounds { IsPrefixLen result buffer.new }
    ensures bytes { Consumes (R.remaining input.old) (R.remaining input.new) (take result buffer.new) }
{
    let mut done = 0;
    // Kept: a turn adds what a read gave, so that no index is counted; `read_exact` tells no number where the input ends.
    while done < buffer.len() {
        match input.read(&mut buffer[done..]) {
            Ok(0) => break,
            Ok(n) => done += n,
            Err(_) => break,
        }
    }
    done
}
