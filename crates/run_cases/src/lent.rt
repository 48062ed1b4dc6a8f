// One run, of what a case lends, and what it answers.
use case_fields::line::first;
use case_lines::answer::Answer;
use case_lines::case::{Loan, Question};
use case_lines::lending::lent;
use results::ran::Ending;
use search::ends::{End, number_of_end};
use solver::run;
use terms::refusal::{Cause, Refusal, number_of};

// How a run comes out for which there may be less to lend than its case lends.
// Kept: `Short` is neither an end nor a refusal, and an error type for it and for refusals would be matched at the same three places.
#[derive(Clone, Copy)]
pub enum Outcome {
    Ended(Ending),
    Refused(Refusal),
    // it would have needed more than there is
    Short,
}

// It ran out of answer words: is that because there are fewer than the case lends?
fn ended(ending: Ending, fewer: bool) -> Outcome {
    match ending.end {
        End::Space if fewer => Outcome::Short,
        _ => Outcome::Ended(ending),
    }
}

// It was refused for want of room: is that because there is less than the case lends?
// Kept: `as`, for there is no `From` between `usize` and `u64`, and `try_from` would bring an error that can't come.
fn refused(refusal: Refusal, room: u64) -> Outcome {
    match refusal.cause {
        Cause::Buffer if refusal.place as u64 <= room => Outcome::Short,
        _ => Outcome::Refused(refusal),
    }
}

// At most so many answer words and so much room are lent as there are.
// Kept: `as`, for there is no `From` between `usize` and `u64`, and `try_from` would bring an error that can't come.
pub fn run_lent(loan: Loan, question: Question, answers: &mut [u16], room: &mut [u16]) -> Outcome {
    let fewer = (answers.len() as u64) < loan.space;
    match run(
        question.unknowns,
        question.arities,
        question.equations,
        question.words,
        loan.steps,
        loan.depth,
        loan.size,
        lent(answers, loan.space),
        lent(room, loan.room),
    ) {
        Ok(ending) => ended(ending, fewer),
        Err(refusal) => refused(refusal, loan.room),
    }
}

// The answer, whose words stand at the start of those that were lent.
pub fn told(outcome: Outcome, answers: &[u16]) -> Answer<'_> {
    match outcome {
        Outcome::Ended(Ending { end, counts }) => Answer::Ended {
            end: number_of_end(end),
            visited: counts.visited,
            answers: counts.answers,
            words: first(answers, counts.words),
        },
        Outcome::Refused(Refusal { cause, place }) => Answer::Refused {
            number: number_of(cause),
            place,
        },
        Outcome::Short => Answer::Short,
    }
}
