// Whether equations hold, with a value for each unknown.
//
//     hold    equations gone through, one after the other
//     spread  how many words a question has with its values put in
//
// In specs/, `Holding` says when an equation holds.
#![tactic(auto)]

pub mod hold;
pub mod spread;
