// The steps that leave no choice, apart from splits.
ghost use Rattle.std.specs.Prelude.{◌≡◌};
ghost use Rattle.plain_steps.specs.Plain.{way_of};

use search::steps::{Step, Tails};

#[derive(Clone, Copy)]
pub enum Plain {
    Drop,
    Bind(Tails),
    Postpone(Tails),
    Decompose,
    Dead,
}

#[derive(Clone, Copy)]
pub enum Way {
    Split(Tails),
    Plain(Plain),
}

pub fn way_of(step: Step) -> Way
    ensures { result ≡ way_of step }
{
    match step {
        Step::Drop => Way::Plain(Plain::Drop),
        Step::Bind(tails) => Way::Plain(Plain::Bind(tails)),
        Step::Postpone(tails) => Way::Plain(Plain::Postpone(tails)),
        Step::Decompose => Way::Plain(Plain::Decompose),
        Step::Split(tails) => Way::Split(tails),
        Step::Dead => Way::Plain(Plain::Dead),
    }
}

// A first equation that leaves no choice: its step, the place of its right side, and the place after it.
#[derive(Clone, Copy)]
pub struct Forced {
    pub step: Plain,
    pub right: usize,
    pub end: usize,
}
