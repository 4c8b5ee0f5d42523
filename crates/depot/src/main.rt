// Document 01's program: reads a network file in binary from standard input and prints its model words, its refusal, or "input".
// The exit status is 0 where all was read and written: the text says which of the three it is.
#![tactic(auto)]

ghost use Rattle.std.specs.Prelude.{◌≤◌, IfOk, length};

use std::io;
use std::io::{Read, Write};

// As much of the input as the list holds; answers how many bytes that is.
fn read_full(mut from: impl Read + Drop, to: &mut [u8]) -> io::Result<usize>
    ensures { IfOk result (λ n. n ≤ length to.new) }
{
    let mut n = 0;
    while n < to.len() {
        let got = from.read(&mut to[n..])?;
        if got == 0 {
            return Ok(n);
        }
        n += got;
    }
    Ok(n)
}

fn main(rt: HostRuntime) -> io::Result<()> {
    // Fixed lists: the program has no heap. One byte more than an input may have, so that a longer one is seen.
    let mut input = [0u8; 16385];
    let n = read_full(rt.stdin(), &mut input)?;
    // The most that is printed: 512 lines of nine bytes.
    let mut text = [0u8; 4608];
    let count = depot_text::depot(&input[..n], &mut text);
    rt.stdout().write_all(&text[..count])
}
