// How a child of a split is made from its picks.
//
//     nothing_bound  neither tail is an unknown, or both are the same one
//     different      both are, and they differ: two bindings, one after the other
//     split          by the kind of the tails
//
// In specs/, `KeptTails` and `Shared` say what is laid out on the way, `OccursAfter` when a tail would be bound inside itself.
#![tactic(auto)]

pub mod different;
pub mod nothing_bound;
pub mod split;
