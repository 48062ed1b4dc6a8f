// Answer lists written as text: `write_answers`. It is measured first, as crate `writer` does it, whose `Written` says what is answered and what the buffer holds.
#![tactic(auto)]

pub mod list;
