// What every state of the search keeps: theorems about the definitions of `search`, for the promises and for the run. There is no code here.
//
// In specs/: `SolvedForm` says when bindings are in solved form; beside it numbers that pass a test, the unknowns of a term, weights of equations, the picks of a
// split. In proofs/: `Orderly` says when a state is in order and which changes keep it so, `Falling` and `JoinFalls` that every child is in order and smaller,
// `Tree` that all states from the root on are.
#![tactic(auto)]
