// The tails of a split's child: the members that picked a tail, and one tail bound to them.
//
//     joined_members  the members that picked the tail
//     bound_tail      a tail bound to a value that stands in scratch
//     one_tail        the child where only one tail is an unknown
//
// In specs/, `Due` says what a child of a split is to be, `Value` and `Bound` what a tail is bound to.
#![tactic(auto)]

pub mod bound_tail;
pub mod joined_members;
pub mod one_tail;
