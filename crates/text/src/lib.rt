// The text form of questions and answer lists: the keys that the reader compares with and the writer writes. The definitions are in
// specs/: `Keys` has the same keys as bytes, `Text` the text of numbers, terms and questions, `AnswerText` that of answer lists.
#![tactic(auto)]

pub const EDITION: [u8; 8] = *b"edition=";

pub const UNKNOWNS: [u8; 9] = *b"unknowns=";

pub const ARITIES: [u8; 8] = *b"arities=";

pub const EQUATIONS: [u8; 10] = *b"equations=";

pub const LEFT: [u8; 5] = *b"left=";

pub const RIGHT: [u8; 6] = *b"right=";

pub const END: [u8; 4] = *b"end=";

pub const VISITED: [u8; 8] = *b"visited=";

pub const ANSWERS: [u8; 8] = *b"answers=";

pub const BINDINGS: [u8; 9] = *b"bindings=";

pub const UNKNOWN: [u8; 8] = *b"unknown=";

pub const VALUE: [u8; 6] = *b"value=";
