// How the text of a term begins: a name with its number and bracket, or the bracket of a set. `Items` of the crate `items` says what is read.
#![tactic(auto)]

pub mod beginning;
pub mod declared;
