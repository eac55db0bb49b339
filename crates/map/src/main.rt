// The map program: it reads the count and both strings from standard input, and prints their map, or their refusal.
#![tactic(auto)]

ghost use Rattle.std.specs.Prelude.{◌≤◌, ◌<◌, IfOk, length, take};
ghost use Rattle.std.specs.Io.KnownBytes.{Consumes, IsAtEnd};

use descriptor::map_text;
use std::io;
use std::io::{Read, Write};

// Reads until the input ends or the buffer is full, and gives how many bytes it read. Each turn goes on by what a read gave. No method
// of the library does this: `read_to_end` wants a `Vec`, `read_exact` says nothing of a shorter input, `io::copy` nothing of a slice's bytes.
fn read_full<R: Read>(reader: &mut R, input: &mut [u8]) -> io::Result<usize>
    ensures bound { IfOk result (λ n. n ≤ length input.new) }
    ensures bytes { IfOk result (λ n. Consumes (R.remaining reader.old) (R.remaining reader.new) (take n input.new)) }
    ensures end { IfOk result (λ n. n < length input.new → IsAtEnd (R.remaining reader.new)) }
{
    let mut n = 0;
    while n < input.len() {
        let read = reader.read(&mut input[n..])?;
        if read == 0 {
            return Ok(n);
        }
        n += read;
    }
    Ok(n)
}

fn main(rt: HostRuntime) -> io::Result<()> {
    // No heap: both buffers are arrays, and each has its size beside it.
    // The longest input that loads has 3 + 120 + 120 = 243 bytes. One of 244 or more prints `refused 9`, and so do its first 244:
    // either the sizes do not add up, or a string is over 120. So 244 bytes decide what is printed (`map-first`, proved in rules).
    let mut input = [0u8; 244];
    let n = read_full(&mut rt.reader(), &mut input)?;
    let mut text = [0u8; 1024];
    let size = map_text(&input[..n], &mut text);
    io::writer(&rt).write_all(&text[..size])
}
