// run STEPS DEPTH SIZE SPACE HEX. The limits are tested before the text is read; the room has no bound.
//
// The largest limits ask for more room than a program's stack has. Such a run is tried with a smaller depth, and then with a smaller size: what it
// gives is what the whole run gives, unless the smaller limit ended it. More lent, same list.
use crate::lent::{Outcome, run_lent, told};
use case_fields::line::first;
use case_lines::answer::Answer;
use case_lines::case::{Loan, Question};
use reader::question::read_question;
use results::ran::Ending;
use search::ends::End;
use terms::bounds::{FUNCTORS, SYMBOLS};
use terms::refusal::{Cause, Refusal};

// What a room has beside the lent size in each row, and beside the lent depth in rows: `HEADER` and `SPARE_ROWS` of crate `room`, which are the same number.
const BESIDE: usize = 8;

// How large one limit may be beside the other, so that the room suffices.
fn limit_beside(other: usize, room: usize) -> usize {
    if other < 65536 {
        (room / (other + BESIDE)).saturating_sub(BESIDE)
    } else {
        0
    }
}

// What the case lends; where there is too little, a depth that there is room for; where that ends the run, a size that there is room for.
fn run_question(loan: Loan, question: Question, answers: &mut [u16], room: &mut [u16]) -> Outcome {
    let whole = run_lent(loan, question, answers, room);
    let Outcome::Short = whole else {
        return whole;
    };
    let depth = limit_beside(loan.size, room.len());
    let shallow = run_lent(Loan { depth, ..loan }, question, answers, room);
    let Outcome::Ended(
        Ending {
            end: End::Depth,
            ..
        },
    ) = shallow
    else {
        return shallow;
    };
    let size = limit_beside(loan.depth, room.len());
    match run_lent(Loan { size, ..loan }, question, answers, room) {
        Outcome::Ended(Ending { end: End::Size, .. }) => Outcome::Short,
        small => small,
    }
}

fn run_text(loan: Loan, text: &[u8], answers: &mut [u16], room: &mut [u16]) -> Outcome {
    let mut arities = [0u8; FUNCTORS];
    let mut words = [0u16; SYMBOLS];
    match read_question(text, &mut arities, &mut words) {
        Ok(counts) => {
            let question = Question {
                unknowns: counts.unknowns,
                arities: first(&arities, counts.functors),
                equations: counts.equations,
                words: first(&words, counts.words),
            };
            run_question(loan, question, answers, room)
        }
        Err(refusal) => Outcome::Refused(refusal),
    }
}

// What the limits alone are refused with: a question without equations is asked.
fn limits_refused(loan: Loan, answers: &mut [u16], room: &mut [u16]) -> Option<Refusal> {
    let question = Question {
        unknowns: 0,
        arities: &[0],
        equations: 0,
        words: &[],
    };
    match run_lent(loan, question, answers, room) {
        Outcome::Refused(refusal) => match refusal.cause {
            Cause::Limit => Some(refusal),
            _ => None,
        },
        _ => None,
    }
}

pub fn run_case<'a>(
    loan: Loan,
    text: &[u8],
    answers: &'a mut [u16],
    room: &mut [u16],
) -> Answer<'a> {
    let outcome = match limits_refused(loan, answers, room) {
        Some(refusal) => Outcome::Refused(refusal),
        None => run_text(loan, text, answers, room),
    };
    told(outcome, answers)
}
