// What scratch keeps of a split that stands open: the numbers of its sides. In specs/, `NotedSides` says which they are, and where they stand.
#![tactic(auto)]

pub mod shown;
