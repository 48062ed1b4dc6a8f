// The numbers of SPECIFICATION 3.1 and 3.2, as `edition_one` of specs/Bounds has them. Code names them from here; contracts, definitions and proofs by the names there.

// the words of the empty set and of member adding
pub const EMPTY: u16 = 0;

pub const MEMBER: u16 = 1;

// the word of unknown 0; the word of functor 0, which is the first after the unknowns' words; the first word after the functors'
pub const FIRST_UNKNOWN: u16 = 1000;

pub const FIRST_FUNCTOR: u16 = 2000;

pub const AFTER_FUNCTORS: u16 = 3000;

// the most unknowns in a question and on a path, functors, arguments, equations and words
pub const UNKNOWNS: usize = 256;

pub const PATH_UNKNOWNS: usize = 512;

pub const FUNCTORS: usize = 256;

pub const ARITY: u8 = 8;

pub const EQUATIONS: usize = 64;

pub const SYMBOLS: usize = 4096;

// the most brackets that may be open in a text
pub const NESTING: usize = 200;
