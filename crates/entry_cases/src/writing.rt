// writeq U A E W CAP and writel A END VISITED COUNT W CAP. At most CAP bytes are lent.
use crate::refused;
use case_fields::line::first;
use case_lines::answer::Answer;
use case_lines::case::Question;
use list_writer::list::write_answers;
use terms::refusal::Refusal;
use writer::question::write_question;

// What was written to the start of the text.
fn told(written: Result<usize, Refusal>, text: &[u8]) -> Answer<'_> {
    match written {
        Ok(length) => Answer::Text(first(text, length)),
        Err(refusal) => refused(refusal),
    }
}

pub fn writeq_case<'a>(question: Question, text: &'a mut [u8]) -> Answer<'a> {
    let written = write_question(
        question.unknowns,
        question.arities,
        question.equations,
        question.words,
        text,
    );
    told(written, text)
}

pub fn writel_case<'a>(
    arities: &[u8],
    end: u64,
    visited: u64,
    answers: usize,
    words: &[u16],
    text: &'a mut [u8],
) -> Answer<'a> {
    let written = write_answers(arities, end, visited, answers, words, text);
    told(written, text)
}
