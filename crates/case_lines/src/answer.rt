// What an entry answered, and the line of its result.
use crate::case::Question;
use case_fields::hex::put_hex;
use case_fields::list::put_list;
use word_writer::put::{put_byte, put_bytes, put_number};

// Kept: a line of results has one of these seven forms, and a refusal is one of them.
#[derive(Clone, Copy)]
pub enum Answer<'a> {
    // a question that was read
    Question(Question<'a>),
    // a text that was written
    Text(&'a [u8]),
    Equal(bool),
    Solves(bool),
    // a run: its end, nodes visited, answers listed and their words
    Ended {
        end: u32,
        visited: u64,
        answers: u64,
        words: &'a [u16],
    },
    Refused {
        number: u32,
        place: usize,
    },
    // a run for which the driver has too little to lend
    Short,
}

// Kept: a page and a place go side by side here, as `put_byte`, `put_bytes` and `put_number` of crate `word_writer` take them, whose clauses `Wrote` name both.

// A number and a separator.
// Kept: beside `put_name` of `word_writer`, the other way round.
fn put_part(page: &mut [u8], at: usize, number: u64, separator: u8) -> usize {
    let next = put_number(page, at, number);
    put_byte(page, next, separator)
}

// refused N P
// Kept: `as`, for there is no `From` between `usize` and `u64`, and `try_from` would bring an error that can't come.
fn put_refusal(page: &mut [u8], number: u32, place: usize) -> usize {
    let next = put_bytes(page, 0, b"refused ");
    let after = put_part(page, next, u64::from(number), b' ');
    put_number(page, after, place as u64)
}

// ok U|A|E|W
// Kept: `as`, for there is no `From` between `usize` and `u64`, and `try_from` would bring an error that can't come.
fn put_question(page: &mut [u8], question: Question) -> usize {
    let first = put_bytes(page, 0, b"ok ");
    let second = put_part(page, first, question.unknowns as u64, b'|');
    let third = put_list(page, second, question.arities);
    let fourth = put_byte(page, third, b'|');
    let fifth = put_part(page, fourth, question.equations as u64, b'|');
    put_list(page, fifth, question.words)
}

// ok HEX
fn put_text(page: &mut [u8], text: &[u8]) -> usize {
    let next = put_bytes(page, 0, b"ok ");
    put_hex(page, next, text)
}

// END VISITED ANSWERS W, where W is - if no word was used
fn put_ending(page: &mut [u8], end: u32, visited: u64, answers: u64, words: &[u16]) -> usize {
    let first = put_part(page, 0, u64::from(end), b' ');
    let second = put_part(page, first, visited, b' ');
    let third = put_part(page, second, answers, b' ');
    if words.is_empty() {
        return put_byte(page, third, b'-');
    }
    put_list(page, third, words)
}

// The result is written at the start of the page, and its length comes back.
pub fn put_answer(page: &mut [u8], answer: Answer) -> usize {
    match answer {
        Answer::Question(question) => put_question(page, question),
        Answer::Text(text) => put_text(page, text),
        Answer::Equal(true) => put_bytes(page, 0, b"equal"),
        Answer::Equal(false) => put_bytes(page, 0, b"differ"),
        Answer::Solves(true) => put_bytes(page, 0, b"yes"),
        Answer::Solves(false) => put_bytes(page, 0, b"no"),
        Answer::Ended {
            end,
            visited,
            answers,
            words,
        } => put_ending(page, end, visited, answers, words),
        Answer::Refused { number, place } => put_refusal(page, number, place),
        Answer::Short => put_bytes(page, 0, b"more room is needed than there is"),
    }
}
