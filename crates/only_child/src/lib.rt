// The child of a row that has but one, and what is told of a row's children.
//
//     next       what is told of a row's children
//     quiet      the child of a row in which nothing is pending
//     no_choice  the child of a row whose first equation leaves no choice
//
// In specs/, `Next` is what is asked of a row and told of its children; `Quiet` and `NoChoice` are what is asked by how the child comes; `Became` says what a
// node is by what became of it.
#![tactic(auto)]

pub mod next;
pub mod no_choice;
pub mod quiet;
