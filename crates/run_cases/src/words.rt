// runw U A E W STEPS DEPTH SIZE SPACE ROOM.
use crate::lent::{run_lent, told};
use case_lines::answer::Answer;
use case_lines::case::{Loan, Question};

pub fn runw_case<'a>(
    question: Question,
    loan: Loan,
    answers: &'a mut [u16],
    room: &mut [u16],
) -> Answer<'a> {
    let outcome = run_lent(loan, question, answers, room);
    told(outcome, answers)
}
