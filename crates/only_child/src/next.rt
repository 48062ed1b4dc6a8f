// What is told of a row's children.
ghost use Rattle.std.specs.Prelude.{◌≡◌};
ghost use Rattle.only_child.specs.Next.{made_of, next_made};

use rows::parts::{Made, Reached};

#[derive(Clone, Copy)]
pub enum Next {
    // so many dead ends, and no child after them
    Spent(usize),
    // so many dead ends, and then a node that is none
    Node(usize, Reached),
    // so many dead ends, and a child after them that may not be opened
    Due(usize),
}

// What is told of a row's children, and whether the row's split stands open in scratch then.
// Kept: of a split's and of another row's children each `Next` can be told, so an enum of the two would be no plainer than a flag.
#[derive(Clone, Copy)]
pub struct Looked {
    pub next: Next,
    pub opens: bool,
}

// What became of a node, if it is no dead end.
pub fn reached(made: Made) -> Option<Reached>
    ensures { made ≡ made_of result }
{
    match made {
        Made::Dead => None,
        Made::Names => Some(Reached::Names),
        Made::Large => Some(Reached::Large),
        Made::Live => Some(Reached::Live),
    }
}

// The only child of a row, by what became of it.
pub fn told_of(made: Made) -> Next
    ensures { result ≡ next_made made }
{
    match reached(made) {
        None => Next::Spent(1),
        Some(node) => Next::Node(0, node),
    }
}
