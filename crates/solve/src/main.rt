// A question's text on standard input, the text of its answers on standard output; on a refusal, its number and its place. Crate `text_solver` says and
// proves what is printed for what is read: here bytes are moved. A read or a write that fails ends the program with an error.
#![tactic(auto)]

use full_reads::read_full;
use printing::OUTPUT;
use std::io;
use std::io::Write;
use text_solver::solve_text;

// More bytes than any good question has: `question-length` of text/specs/Sizes.antt.
const INPUT: usize = 32768;

fn main(rt: HostRuntime) -> io::Result<()> {
    let mut text = [0u8; INPUT];
    let mut output = [0u8; OUTPUT];
    let read = read_full(&mut rt.reader(), &mut text)?;
    let printed = solve_text(&text[..read], &mut output);
    io::writer(&rt).write_all(&output[..printed])
}
