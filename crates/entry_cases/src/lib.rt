// The cases that are one call of an entry: what `read_question`, `write_question`, `write_answers`, `equal` and `solves` answer.
//
//   comparing  equal, values
//   reading    text, read
//   writing    writeq, writel
#![tactic(auto)]

pub mod comparing;
pub mod reading;
pub mod writing;

use case_lines::answer::Answer;
use terms::refusal::{Refusal, number_of};

fn refused<'a>(refusal: Refusal) -> Answer<'a> {
    Answer::Refused {
        number: number_of(refusal.cause),
        place: refusal.place,
    }
}
