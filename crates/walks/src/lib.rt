// Walks over the words of terms, each word read once: `walk` finds where terms end, `occurrence` whether and where an unknown stands. In specs/,
// `Occurrence` says what the second finds in trees; `Walk` of `terms` has the first.
#![tactic(auto)]

pub mod occurrence;
pub mod walk;
