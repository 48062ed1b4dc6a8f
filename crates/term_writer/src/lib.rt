// A term written as text, word by word. `WordByWord` of `word_writer` says what each word writes.
#![tactic(auto)]

pub mod term;
