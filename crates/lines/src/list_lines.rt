// The lines of an answer list.
ghost use Rattle.search.specs.Ends.{end_word};
ghost use Rattle.terms.specs.Bounds.{edition_one};
ghost use Rattle.text.specs.Keys.{end_key};
ghost use Rattle.text.specs.Text.{line};
ghost use Rattle.lines.specs.ListLines.{binding_at, answer_at, list_header, list_lines};
ghost use Rattle.word_writer.specs.Pen.{Wrote};
ghost use Rattle.word_writer.specs.WordByWord.{Passed};

use crate::each::{Thing, write_each};
use crate::line::{put_number_line, write_term_line};
use search::ends::End;
use word_writer::put::{Passage, TooDeep, put_byte, put_bytes};

// A binding: the number of its unknown, and its value.
struct Binding;

impl Thing for Binding {
    ghost thing_at = { binding_at edition_one };

    fn write(
        arities: &[u8],
        words: &[u16],
        from: usize,
        text: &mut [u8],
        at: usize,
    ) -> Result<Passage, TooDeep> {
        if from < words.len() {
            let next = put_number_line(text, at, &text::UNKNOWN, u64::from(words[from]));
            return write_term_line(arities, words, from + 1, &text::VALUE, text, next);
        }
        Ok(Passage { word: from, at })
    }
}

// An answer: how many bindings it has, and the bindings.
struct Answer;

impl Thing for Answer {
    ghost thing_at = { answer_at edition_one };

    fn write(
        arities: &[u8],
        words: &[u16],
        from: usize,
        text: &mut [u8],
        at: usize,
    ) -> Result<Passage, TooDeep> {
        if from < words.len() {
            let bindings = words[from];
            let next = put_number_line(text, at, &text::BINDINGS, u64::from(bindings));
            return write_each::<Binding>(
                arities,
                words,
                usize::from(bindings),
                from + 1,
                text,
                next,
            );
        }
        Ok(Passage { word: from, at })
    }
}

// The end's word.
fn put_end(text: &mut [u8], at: usize, end: End) -> usize
    ensures { Wrote text.old at (end_word end) text.new result }
{
    match end {
        End::Done => put_bytes(text, at, b"done"),
        End::Steps => put_bytes(text, at, b"steps"),
        End::Depth => put_bytes(text, at, b"depth"),
        End::Names => put_bytes(text, at, b"names"),
        End::Size => put_bytes(text, at, b"size"),
        End::Space => put_bytes(text, at, b"space"),
    }
}

fn put_end_line(text: &mut [u8], at: usize, end: End) -> usize
    ensures { Wrote text.old at (line end_key (end_word end)) text.new result }
{
    let value = put_bytes(text, at, &text::END);
    let after = put_end(text, value, end);
    put_byte(text, after, b'\n')
}

// Kept: `as u64`, since std has no `From` of `usize`, and `try_from` would add a refusal that never comes.
fn put_list_header(end: End, visited: u64, answers: usize, text: &mut [u8], at: usize) -> usize
    ensures { Wrote text.old at (list_header (end_word end) visited answers) text.new result }
{
    let second = put_number_line(text, at, &text::EDITION, 1);
    let third = put_end_line(text, second, end);
    let fourth = put_number_line(text, third, &text::VISITED, visited);
    put_number_line(text, fourth, &text::ANSWERS, answers as u64)
}

pub fn write_list(
    arities: &[u8],
    end: End,
    visited: u64,
    answers: usize,
    words: &[u16],
    text: &mut [u8],
) -> Result<Passage, TooDeep>
    ensures { Passed text.old 0 (list_lines edition_one (end_word end) arities.now visited answers words.now) result text.new }
{
    let first = put_list_header(end, visited, answers, text, 0);
    write_each::<Answer>(arities, words, answers, 0, text, first)
}
