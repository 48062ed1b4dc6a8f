// One turn of the search: the next child of the deepest row is found, and opened. The rows of the path stand in the lent room.
//
// In specs/, `Running` is the loop's invariant, over `Path`, the rows of the path, and `Desk`, the split that stands open; `ChildrenPassed` has the laws of dead
// ends passed at once.
#![tactic(auto)]

pub mod turn;
