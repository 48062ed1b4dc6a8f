// The header of a question's text: edition, unknowns, arities, equations. In specs/, `HeaderText` says what is read.
#![tactic(auto)]

pub mod header;
