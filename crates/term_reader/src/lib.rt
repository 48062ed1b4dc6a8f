// How the text of a term becomes words: the term reader and the reader of members and arguments call each other.
//
// The definitions are in specs/: `Terms` says what is read, `ReadingPlaces` where, `ReadingAnswers` what an answer of the code tells of a reading.
#![tactic(auto)]

pub mod term;
