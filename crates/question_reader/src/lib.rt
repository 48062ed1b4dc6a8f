// The whole text of a question: its header, and two terms for each equation. In specs/, `Questions` says what is read, and `WholePlaces` where a text is
// refused.
#![tactic(auto)]

pub mod whole;
