// The word that begins a term: what it stands for, and the brackets that it opens or closes.
ghost use Rattle.std.specs.Prelude.{[], ◌∷◌, ◌≡◌, ◌<◌, length, drop};
ghost use Rattle.terms.specs.Bounds.{edition_one};
ghost use Rattle.word_writer.specs.declared.bracket.Bracket.TheVariants.{Tail};
ghost use Rattle.word_writer.specs.WordByWord.{symbol, after, begins, Stepped};

use crate::bracket::{Bracket, Brackets};
use crate::put::{put_byte, put_bytes, put_name};
use terms::kind::{Kind, kind_of};

// What a word stands for: a functor with the number of its arguments.
// Kept: an enum beside `Kind`, which has a functor without its arguments, and words that stand for nothing; a writer's words all stand for something.
#[derive(Clone, Copy)]
pub enum Symbol {
    Empty,
    Adding,
    Unknown(u16),
    Functor(u16, u8),
}

pub fn symbol_of(arities: &[u8], word: u16) -> Symbol
    ensures { result ≡ symbol edition_one arities.now word }
{
    match kind_of(word) {
        Kind::Empty => Symbol::Empty,
        Kind::Member => Symbol::Adding,
        Kind::Unknown(i) => Symbol::Unknown(i),
        Kind::Functor(k) => {
            Symbol::Functor(k, arities.get(usize::from(k)).copied().unwrap_or(0))
        }
        Kind::Nothing => Symbol::Empty,
    }
}

// A word that begins a term; or none, where it would open a bracket too many.
pub fn begin<const N: usize>(
    symbol: Symbol,
    brackets: &mut Brackets<N>,
    text: &mut [u8],
    at: usize,
) -> Option<usize>
    ensures { Stepped text.old at (begins N symbol brackets.old) result brackets.new text.new }
{
    match symbol {
        Symbol::Empty => {
            let next = put_bytes(text, at, b"{}");
            Some(brackets.close(text, next))
        }
        Symbol::Adding => brackets.open(Bracket::Member, text, at, b'{'),
        Symbol::Unknown(i) => {
            let next = put_name(text, at, b'x', u64::from(i));
            Some(brackets.close(text, next))
        }
        Symbol::Functor(k, n) => {
            let next = put_name(text, at, b'f', u64::from(k));
            if n == 0 {
                return Some(brackets.close(text, next));
            }
            brackets.open(Bracket::Arguments(n - 1), text, next, b'(')
        }
    }
}

// The word that begins the tail of the innermost bracket's set.
pub fn begin_tail<const N: usize>(
    symbol: Symbol,
    brackets: &mut Brackets<N>,
    text: &mut [u8],
    at: usize,
) -> Option<usize>
    requires { 0 < length brackets.old }
    ensures { Stepped text.old at (after (124 ∷ []) (begins N symbol (Tail ∷ drop 1 brackets.old))) result brackets.new text.new }
{
    let next = put_byte(text, at, b'|');
    brackets.change(Bracket::Tail);
    begin(symbol, brackets, text, next)
}
