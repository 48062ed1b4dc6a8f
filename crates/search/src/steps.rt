// The kinds of steps that the first pending equation can call for, and the kinds of its two sides' tails. specs/Classify.antt says which
// equation has which.

// What the tails of an equation's two sides are; an unknown is its own tail.
#[derive(Clone, Copy)]
pub enum Tails {
    // neither tail is an unknown
    Neither,
    // only the left tail is
    Left,
    // only the right tail is
    Right,
    // both are, and they differ
    Different,
    // both are the same unknown
    Same,
}

#[derive(Clone, Copy)]
pub enum Step {
    // the equation says nothing
    Drop,
    // an unknown = a term in which it is absent
    Bind(Tails),
    // an unknown = a set whose tail it is, and in which it occurs nowhere else
    Postpone(Tails),
    // one functor on both sides: its arguments
    Decompose,
    // two sets with members
    Split(Tails),
    // no values make the sides equal
    Dead,
}
