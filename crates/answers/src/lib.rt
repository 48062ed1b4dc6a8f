// Every answer true and none lost, the second promise of docs/PROMISES.md, as theorems about the published search. No code.
//
//     specs/Fits                what it is to fit a listed answer
//     specs/Steps, specs/Runs   one step: what a state says, that its children say no more and lose nothing; visits and words of answers
//     proofs/DemandTwo          the statements: read this first; proofs/SolvedExactly joins them
//     proofs/Examples           the statements applied to the specimens (SPECIFICATION 11)
//     proofs/Runs               from the steps to a whole run
#![tactic(auto)]
