// The lines of a question.
ghost use Rattle.terms.specs.Bounds.{edition_one};
ghost use Rattle.text.specs.Keys.{arities_key};
ghost use Rattle.text.specs.Text.{numbers, further_numbers, line};
ghost use Rattle.lines.specs.Lines.{equation_at, header, question_lines};
ghost use Rattle.word_writer.specs.Pen.{Wrote};
ghost use Rattle.word_writer.specs.WordByWord.{Passed};

use crate::each::{Thing, write_each};
use crate::line::{put_number_line, write_term_line};
use word_writer::put::{Passage, TooDeep, put_byte, put_bytes, put_number};

// The further arities, each after a comma.
fn put_further(text: &mut [u8], at: usize, arities: &[u8]) -> usize
    ensures { Wrote text.old at (further_numbers arities.now) text.new result }
{
    let mut next = at;
    for arity in arities {
        let value = put_byte(text, next, b',');
        next = put_number(text, value, u64::from(*arity));
    }
    next
}

// The arities with commas between.
fn put_numbers(text: &mut [u8], at: usize, arities: &[u8]) -> usize
    ensures { Wrote text.old at (numbers arities.now) text.new result }
{
    if let Some((first, further)) = arities.split_first() {
        let next = put_number(text, at, u64::from(*first));
        return put_further(text, next, further);
    }
    at
}

fn put_arities(text: &mut [u8], at: usize, arities: &[u8]) -> usize
    ensures { Wrote text.old at (line arities_key (numbers arities.now)) text.new result }
{
    let value = put_bytes(text, at, &text::ARITIES);
    let end = put_numbers(text, value, arities);
    put_byte(text, end, b'\n')
}

// Kept: `as u64`, since std has no `From` of `usize`, and `try_from` would add a refusal that never comes.
fn put_header(
    unknowns: usize,
    arities: &[u8],
    equations: usize,
    text: &mut [u8],
    at: usize,
) -> usize
    ensures { Wrote text.old at (header unknowns arities.now equations) text.new result }
{
    let second = put_number_line(text, at, &text::EDITION, 1);
    let third = put_number_line(text, second, &text::UNKNOWNS, unknowns as u64);
    let fourth = put_arities(text, third, arities);
    put_number_line(text, fourth, &text::EQUATIONS, equations as u64)
}

// An equation: its sides.
struct Equation;

impl Thing for Equation {
    ghost thing_at = { equation_at edition_one };

    fn write(
        arities: &[u8],
        words: &[u16],
        from: usize,
        text: &mut [u8],
        at: usize,
    ) -> Result<Passage, TooDeep> {
        let left = write_term_line(arities, words, from, &text::LEFT, text, at)?;
        write_term_line(arities, words, left.word, &text::RIGHT, text, left.at)
    }
}

pub fn write_lines(
    unknowns: usize,
    arities: &[u8],
    equations: usize,
    words: &[u16],
    text: &mut [u8],
) -> Result<Passage, TooDeep>
    ensures { Passed text.old 0 (question_lines edition_one unknowns arities.now equations words.now) result text.new }
{
    let first = put_header(unknowns, arities, equations, text, 0);
    write_each::<Equation>(arities, words, equations, 0, text, first)
}
