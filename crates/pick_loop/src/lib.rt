// The children of a split, one choice of picks after the other: dead ends are passed.
//
//     radix  how many picks a member has
//     pass   the children from those picks on that stand in scratch
//
// In specs/, `PicksInScratch` is what is asked of the picks, and told of the children from them on; `Shown` is a split that stands open in scratch.
#![tactic(auto)]

pub mod pass;
pub mod radix;
