// How an unknown is bound, from one row to another; and how a row goes on without its first equation, nothing bound.
//
//     pile  the entries of an unknown, and the others
//     bind  what a child's row has after its new equations
//     keep  the same, where nothing is bound
//
// In specs/, `Child` and `Keep` say which words the child's row has then, and `At` what is asked of a row that a step is taken from.
#![tactic(auto)]

pub mod bind;
pub mod keep;
pub mod pile;
