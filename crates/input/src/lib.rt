// The standard input, read into a lent buffer.
#![tactic(auto)]

ghost use Rattle.std.specs.Prelude.{◌≤◌, IfOk, length};

use std::io;
use std::io::Read;

// Reads until the buffer is full or the input ends, and gives what was read.
pub fn read<'a>(rt: &impl Input, buffer: &'a mut [u8]) -> io::Result<&'a [u8]>
    ensures { IfOk result (λ bytes. length bytes.now ≤ length buffer.old) }
{
    let mut reader = rt.reader();
    let mut done = 0;
    // Kept: a count, since `read_to_end` needs a heap, and `read_exact` fails where the input is shorter.
    while done < buffer.len() {
        match reader.read(&mut buffer[done..])? {
            0 => break,
            n => done += n,
        }
    }
    Ok(&buffer[..done])
}
