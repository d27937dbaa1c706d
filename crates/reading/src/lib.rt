// Reading a text into a buffer that is lent: for the count program, and for the program of its cases.
#![tactic(auto)]

ghost use Rattle.std.specs.Prelude.{◌≤◌, length, IfOk};

use std::io;
use std::io::Read;

// Reads until the input ends or the buffer is full, and answers how many bytes were read. A read that fails is not the end of a text: half a text
// may be a proper one.
pub fn read_text<R: Read>(input: &mut R, text: &mut [u8]) -> io::Result<usize>
    ensures { IfOk result (λ n. n ≤ length text.new) }
{
    let mut n = 0;
    while n < text.len() {
        match input.read(&mut text[n..])? {
            0 => return Ok(n),
            more => n += more,
        }
    }
    Ok(n)
}
