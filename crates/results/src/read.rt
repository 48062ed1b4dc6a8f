// What reading a question gives.

// How many unknowns, functors, equations and words a question has.
#[derive(Clone, Copy)]
pub struct Counts {
    pub unknowns: usize,
    pub functors: usize,
    pub equations: usize,
    pub words: usize,
}
