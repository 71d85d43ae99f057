// Answers each line of standard input as an input of its own, and then a few inputs that are no line: what is printed is
// held to the file `stdout`.
#![tactic(auto)]

use listing::{MAX_INPUT, MAX_LINE, answer, refusal_line};
use refusal::Refusal;
use std::io;
use std::io::{Read, Write};

// Prints the line that answers the input, in the memory lent, or why that is too short: a refusal to show, not one to hand on.
fn show_in(rt: &HostRuntime, input: &[u8], line: &mut [u8]) -> io::Result<()> {
    match answer(input, line) {
        Ok(end) => rt.stdout().write_all(&line[..end]),
        Err(fault) => show_refusal(rt, Refusal::from(fault)),
    }
}

// Texts go into lent memory, here as in every program.
fn show(rt: &HostRuntime, input: &[u8]) -> io::Result<()> {
    show_in(rt, input, &mut [0u8; MAX_LINE])
}

// Prints a refusal's line, for which the memory is proved to suffice.
fn show_refusal(rt: &HostRuntime, refusal: Refusal) -> io::Result<()> {
    let mut line = [0u8; MAX_LINE];
    let end = refusal_line(refusal, &mut line).unwrap();
    rt.stdout().write_all(&line[..end])
}

// Answers each line of the input, without its byte 10.
fn show_lines(rt: &HostRuntime, input: &[u8]) -> io::Result<()> {
    for line in input.split_inclusive(|b| *b == b'\n') {
        show(rt, line.strip_suffix(b"\n").unwrap_or(line))?;
    }
    Ok(())
}

fn main(rt: HostRuntime) -> io::Result<()> {
    let mut input = Vec::new(rt.alloc());
    rt.stdin().read_to_end(&mut input)?;
    show_lines(&rt, &input)?;
    let full = vec![in rt.alloc(); b' '; MAX_INPUT]?;
    show(&rt, &full)?;
    let over = vec![in rt.alloc(); b'\n'; MAX_INPUT + 1]?;
    show(&rt, &over)?;
    show(&rt, b"p1\n\0(")?;
    show_in(&rt, b"p1 or p2", &mut [0u8; 9])?;
    show_in(&rt, b"p1 and p2", &mut [0u8; 9])
}
