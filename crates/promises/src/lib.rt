// Why a planner may rely on the search: theorems about the definitions of `search`. There is no code here.
//
// proofs/Promises.antt gathers the statements: start there, with their words in specs/Wording.antt. proofs/Examples.antt applies each to a specimen.
// Searches/, in specs/ and proofs/, has what follows of searches and runs from what `invariants` says of states.
#![tactic(auto)]
