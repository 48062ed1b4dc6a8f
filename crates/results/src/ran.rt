// What a run gives.
use search::ends::End;

// Nodes visited, answers, and the words that their list takes.
#[derive(Clone, Copy)]
pub struct Record {
    pub visited: u64,
    pub answers: u64,
    pub words: usize,
}

// How a run ended, and what it counted.
#[derive(Clone, Copy)]
pub struct Ending {
    pub end: End,
    pub counts: Record,
}
