// The lines of questions and of answer lists. In specs/, `Lines` and `ListLines` say what is written.
#![tactic(auto)]

mod each;
pub mod line;
pub mod list_lines;
pub mod question_lines;
