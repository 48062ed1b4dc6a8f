// Bytes and numbers of a text, read from the left, the first fault told.
//
// The definitions are in specs/: `TextReading` is what a reading gives, `Bytes` and `Numbers` say what is read.
#![tactic(auto)]

pub mod bytes;
pub mod number;
