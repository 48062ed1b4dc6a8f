// Terms at places of words, with a value for each unknown further on in the same words, and labels of such places.
//
//     places   where a term ends, where an unknown's value stands, the way along the members of a set to its kernel
//     classes  labels of places: places with one label hold equal terms
//     scan     two sets whose members were all compared: labels tell which are equal
//
// In specs/, `Places`, `Lent` and `Classes` have what a client's contracts cite: what stands at a place, the same of the struct `Held`, what labels say and a
// comparison tells. The other files are laws of these: `Standing`, `Opened`, `Membership` and `Arguments` of a place, `Relabelled` and `Since` of labels.
#![tactic(auto)]

pub mod classes;
pub mod places;
pub mod scan;
