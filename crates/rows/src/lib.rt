// A state as a row of the room: eight header words, then what is pending, the pile and the bindings.
//
//     header  the five numbers of a row, and the place of its body
//     walk    walks over the words of terms
//     step    the step that an equation in words calls for
//     first   a row's numbers, its first equation, and what is left after it
//     parts   what the code of a step passes on
//
// In specs/, `Sections` says of what a row's body is made, `Row` which words a state has in a row, and what a step is to write; `Pile` and `States` are the
// words of a pile and of a state, `Stepping` ties a step in words to `classify`, `Bind` and `Finished` are the words of a row in which an unknown is bound,
// `Bind` section by section; `Made` has what became of a node, where not every case can come, as one of all. Terms/ has the terms in words that the run walks over.
#![tactic(auto)]

pub mod first;
pub mod header;
pub mod parts;
pub mod step;
pub mod walk;
