// The brackets that are open while a term is written, the innermost last.
ghost use Rattle.std.specs.Prelude.{[], ◌∷◌, ◌≡◌, ◌<◌, length, drop};
ghost use Rattle.word_writer.specs.Pen.{Wrote};
ghost use Rattle.word_writer.specs.OpenBrackets.{closed, closing, innermost};
ghost use Rattle.word_writer.specs.WordByWord.{opens, Stepped};

use crate::put::put_byte;
use std::marker::Model;

// An open bracket, by what is due in it.
#[derive(Clone, Copy)]
pub enum Bracket {
    // a set's member is being written
    Member,
    // a member is written, and the rest comes
    Rest,
    // a set's tail is being written
    Tail,
    // an argument is being written, and so many come after it
    Arguments(u8),
}

// At most `N` brackets that are open.
#[derive(Drop)]
pub struct Brackets<const N: usize> {
    held: [Bracket; N],
    depth: usize,
}

// Clauses see what is due in each, the innermost first.
impl<const N: usize> Model for Brackets<N> {
    ghost use Rattle.std.specs.Prelude.{List, ◌≤◌};
    ghost use Rattle.word_writer.specs.declared.bracket.Bracket.{Bracket};
    ghost use Rattle.word_writer.specs.OpenBrackets.{brackets};

    ghost Value = { List Bracket };

    ghost view = { λ b. brackets b.held b.depth };

    ghost invariant = { λ b. b.depth ≤ N };
}

impl<const N: usize> Brackets<N> {
    pub fn new() -> Self
        ensures { result ≡ [] }
    {
        Brackets {
            held: [Bracket::Rest; N],
            depth: 0,
        }
    }

    // What is due in the innermost.
    pub fn innermost(&self) -> Option<Bracket>
        ensures { result ≡ innermost self.now }
    {
        if self.depth == 0 {
            return None;
        }
        Some(self.held[self.depth - 1])
    }

    // In the innermost this is due from now on.
    pub fn change(&mut self, due: Bracket)
        requires { 0 < length self.old }
        ensures { self.new ≡ due ∷ drop 1 self.old }
    {
        self.held[self.depth - 1] = due;
    }

    // One bracket more, in which this is due; or none, where it would be one too many.
    pub fn open(&mut self, due: Bracket, text: &mut [u8], at: usize, byte: u8) -> Option<usize>
        ensures { Stepped text.old at (opens N (byte ∷ []) due self.old) result self.new text.new }
    {
        if N <= self.depth {
            return None;
        }
        self.held[self.depth] = due;
        self.depth += 1;
        Some(put_byte(text, at, byte))
    }

    // A term is written: the brackets that it closes, and the comma before a further argument.
    pub fn close(&mut self, text: &mut [u8], at: usize) -> usize
        ensures wrote { Wrote text.old at (closing self.old) text.new result }
        ensures closes { self.new ≡ closed self.old }
    {
        let mut next = at;
        // Kept: no `for`, since what is due in a bracket tells whether the next is looked at, and each that closes is taken off the value.
        while let Some(due) = self.innermost() {
            match due {
                Bracket::Member => {
                    self.change(Bracket::Rest);
                    return next;
                }
                Bracket::Rest => return next,
                Bracket::Tail => next = put_byte(text, next, b'}'),
                Bracket::Arguments(0) => next = put_byte(text, next, b')'),
                Bracket::Arguments(more) => {
                    self.change(Bracket::Arguments(more - 1));
                    return put_byte(text, next, b',');
                }
            }
            self.depth -= 1;
        }
        next
    }
}
