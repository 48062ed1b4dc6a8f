// How a run's room is laid out: rows of a header and a body, as many as the lent depth and some more.

// The words of a row's header.
pub const HEADER: usize = 8;

// The rows beside those of the lent depth: the root's, and seven of scratch.
pub const SPARE_ROWS: usize = 8;
