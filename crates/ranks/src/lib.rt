// How deep members and arguments stand in the term at each place. In specs/, `Ranks` says what a table of ranks holds, and `Ranked` has its laws.
#![tactic(auto)]

pub mod ranks;
