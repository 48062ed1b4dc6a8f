// read HEX AC WC, which lends at most so many arities and words, and text HEX, which lends the buffers whole.
use crate::refused;
use case_fields::line::first;
use case_lines::answer::Answer;
use case_lines::case::Question;
use reader::question::read_question;

pub fn read_case<'a>(text: &[u8], arities: &'a mut [u8], words: &'a mut [u16]) -> Answer<'a> {
    match read_question(text, arities, words) {
        Ok(counts) => Answer::Question(Question {
            unknowns: counts.unknowns,
            arities: first(arities, counts.functors),
            equations: counts.equations,
            words: first(words, counts.words),
        }),
        Err(refusal) => refused(refusal),
    }
}
