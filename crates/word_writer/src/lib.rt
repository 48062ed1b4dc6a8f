// Bytes, names and the beginnings of terms written as text. Writing past a buffer's end counts and stores nothing, so that one function both measures and
// writes. The definitions are in specs/: `Pen` says what writing bytes means, `WordByWord` what each word of a term writes, `Depths` where brackets stand too
// deep; `Tied` proves that walking over a term's words writes the term's text.
#![tactic(auto)]

pub mod begin;
pub mod bracket;
pub mod put;
