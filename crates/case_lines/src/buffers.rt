// What a driver holds, on a stack of 8 MiB: there is no heap.

// The longest line of cases, with its LF.
pub const INPUT: usize = 131073;

// The most numbers in a list; a line with more is no case.
pub const ITEMS: usize = 12288;

// A word gives 12 bytes of text at most, as `unknown=511` and LF, so that this holds the text of every list.
pub const BYTES: usize = 147456;

// `ok ` and such a text in hex.
pub const PAGE: usize = 294928;

// What runs work in.
pub const ROOM: usize = 3000000;

// The lists of a case. A text is at most half as long as its line.
#[derive(Drop)]
pub struct Lists {
    pub text: [u8; 65536],
    pub arities: [u8; ITEMS],
    pub words: [u16; ITEMS],
    pub row: [u16; ITEMS],
}

// What an entry lays down, and what a run works in. The room is lent, for an array that is written into a struct can stand on the stack twice.
#[derive(Drop)]
pub struct Laid<'a> {
    pub bytes: [u8; BYTES],
    pub words: [u16; ITEMS],
    pub room: &'a mut [u16; ROOM],
}
