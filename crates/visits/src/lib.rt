// What becomes of a node that is due: it is visited, or the run ends.
//
//     number  the number of a row's next child, in its header
//     node    dead ends passed, the way back, a node that is met, and the ends
//
// In specs/, `DueNode` says what becomes of a node; `Loans` what a run is lent, and what its outcome tells.
#![tactic(auto)]

pub mod node;
pub mod number;
