// The program: a rule comes in on standard input, and its line goes out on standard output.
#![tactic(auto)]

ghost use Rattle.std.specs.Prelude.{◌≤◌, ◌+◌, IfOk, length};
ghost use Rattle.listing.specs.Input.{max_input};

use listing::{MAX_INPUT, MAX_LINE, answer};
use std::io;
use std::io::{Read, Write};

// One byte more than the longest input tells an input that is too long.
const MAX_READ: usize = MAX_INPUT + 1;

// What is looked at of standard input. Memory for it is taken once, with a byte to spare: a vector that is full would grow before it
// meets the end. No clause of the library says that `take` bounds what comes from standard input, so the cut shows it.
fn read_input(rt: &HostRuntime) -> io::Result<Vec<u8>>
    ensures within { IfOk result (λ input. length input.items ≤ max_input + 1) }
{
    let mut input = Vec::with_capacity(rt.alloc(), MAX_READ + 1)?;
    // No `From` leads from a `usize` to a `u64`.
    rt.stdin().take(MAX_READ as u64).read_to_end(&mut input)?;
    input.truncate(MAX_READ);
    Ok(input)
}

fn main(rt: HostRuntime) -> io::Result<()> {
    let input = read_input(&rt)?;
    // Long enough for every line: `answer` is proved never to refuse it.
    let mut line = [0u8; MAX_LINE];
    let end = answer(&input, &mut line).unwrap();
    rt.stdout().write_all(&line[..end])
}
