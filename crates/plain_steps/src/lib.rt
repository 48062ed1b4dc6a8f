// The steps that leave no choice: each writes the one child of a row.
//
//     first_equation  an equation dropped, postponed or taken apart
//     join            the entries of the pile's first unknown joined
//     plain           these steps, told from splits
//     child           the step that the first equation calls for
//
// In specs/, `StepParts`, `Singles`, `Decomposed` and `OnlyStep` say what each writes, `Join`, `JoinLaid` and `JoinMade` the same of a join;
// `Plain` which step a plain one is.
#![tactic(auto)]

pub mod child;
pub mod first_equation;
pub mod join;
pub mod plain;
