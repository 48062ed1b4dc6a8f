// Which lent words are refused, and where: a question's, a row of ground terms', an answer list's. Here words are checked one by one; `lent_words` has the three.
//
// In specs/, `Check` is the check, to be believed; `Lent` says what a fine check tells, and what is fine. `Short`, `Pushed` and `Checked` are steps on the way.
#![tactic(auto)]

pub mod check;
