// Deep and wide terms, to see that both tests come back and how they answer. Standard input has two ground terms a line, or, where the line has a bar, an
// equation over the unknowns x and y, the bar, and their values. Letters are in prefix order: 1 is member adding, 0 the empty set, any other letter the
// functor with the letter's number; g has one argument and p has two. Each answer is a line. A read or a write that fails ends the program with an error.
#![tactic(auto)]

use equality::{equal, solves};
use full_reads::read_full;
use std::io;
use terms::bounds::{EMPTY, FUNCTORS, MEMBER};
use terms::kind::{functor_word, unknown_word};
use terms::refusal::{Refusal, number_of};

const LINE_END: u8 = 10;

// the bytes that are read
const TEXT: usize = 65536;

// the words of a question, of the bar and of a row
const LINE_WORDS: usize = 8193;

// the word of the letter |
const BAR: u16 = 2124;

fn word_of(letter: u8) -> u16 {
    match letter {
        b'0' => EMPTY,
        b'1' => MEMBER,
        b'x' => unknown_word(0),
        b'y' => unknown_word(1),
        _ => functor_word(usize::from(letter)),
    }
}

fn tell_refusal(rt: &impl Print, refusal: Refusal) -> io::Result<()> {
    let place = refusal.place;
    let number = number_of(refusal.cause);
    println!(rt; "refused {number} {place}")
}

fn tell_equal(rt: &impl Print, arities: &[u8], row: &[u16]) -> io::Result<()> {
    match equal(arities, row) {
        Ok(true) => println!(rt; "equal"),
        Ok(false) => println!(rt; "differ"),
        Err(refusal) => tell_refusal(rt, refusal),
    }
}

fn tell_solving(rt: &impl Print, arities: &[u8], words: &[u16], row: &[u16]) -> io::Result<()> {
    match solves(2, arities, 1, words, row) {
        Ok(true) => println!(rt; "yes"),
        Ok(false) => println!(rt; "no"),
        Err(refusal) => tell_refusal(rt, refusal),
    }
}

fn tell(rt: &impl Print, line: &[u16]) -> io::Result<()> {
    let mut arities = [0u8; FUNCTORS];
    arities[103] = 1;
    arities[112] = 2;
    match line.iter().position(|word| *word == BAR) {
        Some(bar) => tell_solving(rt, &arities, &line[..bar], &line[bar + 1..]),
        None => tell_equal(rt, &arities, line),
    }
}

// A line longer than a question, the bar and a row may be is cut. What stands after the last LF is no line.
fn tell_lines(rt: &impl Print, text: &[u8], row: &mut [u16]) -> io::Result<()> {
    let mut n: usize = 0;
    for letter in text {
        if *letter == LINE_END {
            tell(rt, &row[..n])?;
            n = 0;
        } else if n < row.len() {
            row[n] = word_of(*letter);
            n += 1;
        }
    }
    Ok(())
}

fn main(rt: HostRuntime) -> io::Result<()> {
    let mut text = [0u8; TEXT];
    let mut row = [0u16; LINE_WORDS];
    let n = read_full(&mut rt.reader(), &mut text)?;
    tell_lines(&rt, &text[..n], &mut row)
}
