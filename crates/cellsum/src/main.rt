// Reads a cell's system pages on standard input, without graphics, and prints its area id and counts, or the refusal.
#![tactic(auto)]

use replay::read_full;
use std::io;

// One byte more than is taken, to see that there are more.
const INPUT: usize = cellsum_line::MOST_INPUT + 1;

const WORDS: usize = 16384;

fn main(rt: HostRuntime) -> io::Result<()> {
    let mut input = [0u8; INPUT];
    let mut strip = [0u32; WORDS];
    let mut line = [0u8; cellsum_line::LONGEST];
    let n = read_full(&mut rt.stdin(), &mut input)?;
    let k = cellsum_line::cellsum_line(&input[..n], &mut strip, &mut line);
    rt.write_all(&line[..k])
}
