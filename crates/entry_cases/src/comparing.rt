// equal A W and values U A E W ROW.
use crate::refused;
use case_lines::answer::Answer;
use case_lines::case::Question;
use equality::{equal, solves};

pub fn equal_case<'a>(arities: &[u8], words: &[u16]) -> Answer<'a> {
    match equal(arities, words) {
        Ok(same) => Answer::Equal(same),
        Err(refusal) => refused(refusal),
    }
}

pub fn values_case<'a>(question: Question, row: &[u16]) -> Answer<'a> {
    match solves(
        question.unknowns,
        question.arities,
        question.equations,
        question.words,
        row,
    ) {
        Ok(yes) => Answer::Solves(yes),
        Err(refusal) => refused(refusal),
    }
}
