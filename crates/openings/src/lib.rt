// How a split is opened, and how it is gone on with where it stands open. The first three rows of scratch are a split's: once opened, it stands there until
// another is opened, and its next child is found by advancing the picks.
//
// In specs/, `SplitRow` is what is asked of a row whose first equation is a split. Crate `noted_sides` keeps the sides.
#![tactic(auto)]

pub mod open_split;
