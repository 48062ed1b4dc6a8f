// What a term is, and how it is written in words.
//
// The definitions are in specs/. To believe: `Bounds` (the numbers of SPECIFICATION 3.1 and 3.2), `Term` (terms, their words, substitution, members and kernel),
// `Formed` (formed terms, questions, when a question is good), `Kind` (what a word stands for), `Answers` and `Listing` (answers and their words),
// `Reading` (words read back), `Refusal` (the number of each refusal). The laws: `Reading` (unique reading), and in Laws/ `Flat` (as many words
// as symbols; substitution is flat), `Walk` (walks with a counter), `FormedParts`, `Substitution`; in proofs/ `KindLaws` (what follows a functor's word) and `Walk`
// (the law of all walks, and where terms end).
//
// The code: `bounds` has the numbers, `kind` what a word stands for, and `refusal` what is told where a call is refused. Crate `checks` tests lent words, and `walks`
// goes through them.
#![tactic(auto)]

pub mod bounds;
pub mod kind;
pub mod refusal;
