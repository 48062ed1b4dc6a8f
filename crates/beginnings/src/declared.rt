// What a question's header declares of names: how many unknowns there are, and each functor's arity.
ghost use Rattle.std.specs.Prelude.{◌≤◌};
ghost use Rattle.terms.specs.Bounds.{UNKNOWNS};

use arrayvec::ArrayVec;
use terms::bounds::FUNCTORS;

// The arities of a question's functors, as far as they were read.
pub type Arities = ArrayVec<u8, FUNCTORS>;

// A name is read against this: its number is to be below the count of unknowns, or of arities.
#[derive(Clone, Copy)]
pub struct Declared<'a> {
    pub unknowns: usize,
    pub arities: &'a Arities,
    ghost few: { unknowns ≤ UNKNOWNS },
}
