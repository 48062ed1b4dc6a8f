// The lines of cases and of their results, apart from what the entries do: how a line is taken from standard input and read as a case, and how an answer is
// written as a result. Crate `case_fields` has the single fields.
//
//   buffers  what a driver holds
//   input    the next line
//   case     the kinds of cases, and a line as a case, its lists in the buffers
//   lending  how much of a buffer is lent
//   answer   what an entry answered, and the result's line
#![tactic(auto)]

pub mod answer;
pub mod buffers;
pub mod case;
pub mod input;
pub mod lending;
