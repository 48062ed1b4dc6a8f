// Bytes written one after the other: each function writes at a place of the buffer and answers the next place. What lies past the buffer's
// end is counted and not written, so that one function both measures and writes.
ghost use Rattle.std.specs.Prelude.{[], ◌∷◌, ◌≡◌};
ghost use Rattle.terms.specs.declared.refusal.Cause.TheVariants.{Nesting};
ghost use Rattle.text.specs.Text.{decimal};
ghost use Rattle.word_writer.specs.Pen.{Wrote};

use terms::refusal::{Cause, Refusal};

// Where writing words came to: all words before this one are written, and this is the next byte's place.
// Kept: a type of its own beside the readers' pairs of numbers, for their fields tell other things: no reader has a place of a word and one of a byte.
#[derive(Clone, Copy)]
pub struct Passage {
    pub word: usize,
    pub at: usize,
}

// The word that would open a bracket too many.
#[derive(Clone, Copy)]
pub struct TooDeep {
    pub word: usize,
}

// Refusal 6 is told at that word.
impl From<TooDeep> for Refusal {
    ghost from_gives = { λ deep refusal. refusal ≡ record { cause = Nesting; place = deep.word } };

    fn from(deep: TooDeep) -> Refusal {
        Refusal {
            cause: Cause::Nesting,
            place: deep.word,
        }
    }
}

pub fn put_byte(text: &mut [u8], at: usize, byte: u8) -> usize
    ensures { Wrote text.old at (byte ∷ []) text.new result }
{
    if at < text.len() {
        text[at] = byte;
    }
    at.saturating_add(1)
}

pub fn put_bytes(text: &mut [u8], at: usize, bytes: &[u8]) -> usize
    ensures { Wrote text.old at bytes.now text.new result }
{
    let mut next = at;
    for byte in bytes {
        next = put_byte(text, next, *byte);
    }
    next
}

// Plain decimal.
// Kept: by hand. Over the `Buffer` of `itoa` a question takes 9 % longer to write, and an answer list 12 %: nearly all numbers here have one digit.
// Kept: a digit is told as a byte by `as`; std's `u8::try_from` would add a refusal that never comes.
pub fn put_number(text: &mut [u8], at: usize, number: u64) -> usize
    ensures { Wrote text.old at (decimal number) text.new result }
{
    if number < 10 {
        return put_byte(text, at, b'0' + number as u8);
    }
    let next = put_number(text, at, number / 10);
    put_byte(text, next, b'0' + (number % 10) as u8)
}

// A name: its letter and its number.
// Kept: beside `put_part` of `case_lines`, which writes a number first and a byte after it.
pub fn put_name(text: &mut [u8], at: usize, letter: u8, number: u64) -> usize
    ensures { Wrote text.old at (letter ∷ decimal number) text.new result }
{
    let next = put_byte(text, at, letter);
    put_number(text, next, number)
}
