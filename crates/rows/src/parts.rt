// What a row's code passes on: what became of a node, the parts of a row's body, and those of its pile.
ghost use Rattle.std.specs.Prelude.{◌≡◌};
ghost use Rattle.rows.specs.Made.{of_sized};

// What became of a due node.
// Kept: four outcomes, as `becomes` and `Makes` of specs/Row have them; an `Option` of three of them would be taken apart twice in each.
#[derive(Clone, Copy)]
pub enum Made {
    Dead,
    // it needs an unknown too many
    Names,
    // it is larger than lent
    Large,
    // it is written
    Live,
}

// What became of a due node that is no dead end.
// Kept: `node_turn`, `node_room` and `node_answers` of visits/specs/DueNode are stated of these three; `Made` has a fourth, `Dead`, that never meets them.
#[derive(Clone, Copy)]
pub enum Reached {
    Names,
    Large,
    Live,
}

// A live node that needs no unknown too many, as one of all cases: its size tells. Some is written, None is larger than lent.
impl From<Option<()>> for Made {
    ghost from_gives = { λ node made. made ≡ of_sized node };

    fn from(node: Option<()>) -> Made {
        match node {
            Some(()) => Made::Live,
            None => Made::Large,
        }
    }
}

// The rest of a row's body: where it begins, the words of its pending equations, of its pile and of its bindings, and the number of these.
#[derive(Clone, Copy)]
pub struct Rest {
    pub at: usize,
    pub pending: usize,
    pub pile: usize,
    pub bound: usize,
    pub bindings: usize,
}

// Which entries of a pile.
#[derive(Clone, Copy)]
pub enum Part {
    // those of an unknown
    Entries,
    // the others
    Others,
}
