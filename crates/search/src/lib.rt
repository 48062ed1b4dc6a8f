// The published search: SPECIFICATION 5 and 6. This floor holds what a reader must believe, and no
// solver: the types that the definitions and the code share are here, the definitions in specs/.
//
//     limits    the run limits, tested by their constructor
//     steps     the kinds of steps and of tails
//     ends      how a run ends
//
// In specs/, `State`, `Classify`, `Children` and `Run` are the search, in the order of SPECIFICATION 5 and 6; `Specimens` is the table of 11, computed. `StepView`
// says what each step tells of its equation, and `Verdicts` what a verdict tells of its visit; in proofs/, the two files of these names have the laws that every
// step and every verdict is so, for the proofs of the floors above.
#![tactic(auto)]

pub mod ends;
pub mod limits;
pub mod steps;
