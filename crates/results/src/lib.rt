// What calls give back where it is more than a number or a yes: what was read of a question's text, and how a run ended. Each call answers a `Result` with the
// refusal, `terms::refusal::Refusal`: of writing it has the text's length, and of comparing a bool.
//
// In specs/, `Loans` says what a run is lent and what its outcome tells, `Result` what a run gives for any input; proofs/Telling has it test by test.
#![tactic(auto)]

pub mod ran;
pub mod read;
