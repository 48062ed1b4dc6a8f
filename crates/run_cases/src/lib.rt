// The cases of `run`: runs of a question's text and of its words.
//
//   lent   one run, of what a case lends
//   texts  run
//   words  runw
#![tactic(auto)]

pub mod lent;
pub mod texts;
pub mod words;
