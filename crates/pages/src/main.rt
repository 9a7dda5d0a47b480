// The page program: reads a table on standard input, and writes its best plan or why it is refused.
#![tactic(auto)]

mod lines;
mod report;

ghost use Rattle.std.specs.Io.{ReadsAtMost};

use lines::Lines;
use report::report;
use std::io;
use std::io::{Read, Write};
use table::MAX_NODES;

// One byte more than the longest table, so that a longer one shows.
const INPUT_BYTES: usize = 4 + 8 * (MAX_NODES as usize) + 1;

// Reads until the buffer is full or the input ends, and gives back how many bytes stand at its start. A loop of its
// own, since `read_exact` fails where the input ends first, and `read_to_end` needs a heap.
fn read_full(input: &mut impl Read, buf: &mut [u8]) -> io::Result<usize>
    ensures { ReadsAtMost result buf.new }
{
    let mut done = 0;
    while done < buf.len() {
        let n = input.read(&mut buf[done..])?;
        if n == 0 {
            break;
        }
        done += n;
    }
    Ok(done)
}

fn main(rt: HostRuntime) -> io::Result<()> {
    let mut table = [0u8; INPUT_BYTES];
    let got = read_full(&mut rt.stdin(), &mut table)?;
    let mut lines = Lines::new();
    report(&table[..got], &mut lines);
    rt.stdout().write_all(lines.as_bytes())
}
