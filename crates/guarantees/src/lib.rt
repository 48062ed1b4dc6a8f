// What a customer may rely on, call by call: theorems about the very terms of the entries' contracts in crate `mensorique`. There is no code here.
//
// proofs/Promised.antt has the statements: open it first, with docs/SPECIFICATION.md beside it. specs/Calls.antt and specs/Notions.antt say what their words mean,
// proofs/Examples.antt applies each to a specimen, and proofs/Subjects has the proofs, by subject.
#![tactic(auto)]
