// The bench: a file on standard input, its report on standard output. What the report says, report::bench promises.
#![tactic(auto)]

ghost use Rattle.std.specs.Prelude.{◌<◌, IfOk, length, take};
ghost use Rattle.std.specs.Io.{ReadsAtMost};
ghost use Rattle.std.specs.Io.KnownBytes.{Consumes, IsAtEnd};

use std::io;
use std::io::{Print, Read};

// Reads until the buffer is full or the input ends; answers how many bytes it read, which begin the buffer. Of std's,
// read_to_end reads into a Vec on the heap, and read_exact says nothing of what it read where the input ends before.
fn read_full<R: Read>(input: &mut R, buf: &mut [u8]) -> io::Result<usize>
    ensures in_bounds { ReadsAtMost result buf.new }
    ensures bytes { IfOk result (λ n. Consumes (R.remaining input.old) (R.remaining input.new) (take n buf.new)) }
    ensures end { IfOk result (λ n. n < length buf.new → IsAtEnd (R.remaining input.new)) }
{
    let mut n = 0;
    while n < buf.len() {
        match input.read(&mut buf[n..])? {
            0 => break,
            more => n += more,
        }
    }
    Ok(n)
}

fn main(rt: HostRuntime) -> io::Result<()> {
    // on the stack, since nothing here takes heap; one byte more than a file may have, so that too long an input is
    // seen
    let mut input = [0u8; 65537];
    let n = read_full(&mut rt.stdin(), &mut input)?;
    // no report is longer, so that none is cut
    let mut out = [0u8; report::MOST];
    let length = report::bench(&input[..n], &mut out);
    rt.write_all(&out[..length])
}
