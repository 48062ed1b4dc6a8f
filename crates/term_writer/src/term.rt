// A term written word by word, with the brackets that are open.
ghost use Rattle.std.specs.Prelude.{◌<◌, length, drop};
ghost use Rattle.terms.specs.Bounds.{edition_one};
ghost use Rattle.word_writer.specs.WordByWord.{symbol, continues, word as written-word, term_at, Stepped, Passed};

use terms::bounds::NESTING;
use word_writer::begin::{Symbol, begin, begin_tail, symbol_of};
use word_writer::bracket::{Bracket, Brackets};
use word_writer::put::{Passage, TooDeep, put_byte};

// A word where the rest of a set is due, in the innermost bracket.
fn continue_set<const N: usize>(
    symbol: Symbol,
    brackets: &mut Brackets<N>,
    text: &mut [u8],
    at: usize,
) -> Option<usize>
    requires { 0 < length brackets.old }
    ensures { Stepped text.old at (continues N symbol (drop 1 brackets.old)) result brackets.new text.new }
{
    match symbol {
        Symbol::Empty => {
            brackets.change(Bracket::Tail);
            Some(brackets.close(text, at))
        }
        Symbol::Adding => {
            brackets.change(Bracket::Member);
            Some(put_byte(text, at, b','))
        }
        Symbol::Unknown(_) => begin_tail(symbol, brackets, text, at),
        Symbol::Functor(_, _) => begin_tail(symbol, brackets, text, at),
    }
}

// A word, whatever is due; or none, where it would open a bracket too many.
fn write_word<const N: usize>(
    symbol: Symbol,
    brackets: &mut Brackets<N>,
    text: &mut [u8],
    at: usize,
) -> Option<usize>
    ensures { Stepped text.old at (written-word N symbol brackets.old) result brackets.new text.new }
{
    if let Some(due) = brackets.innermost() {
        if let Bracket::Rest = due {
            return continue_set(symbol, brackets, text, at);
        }
    }
    begin(symbol, brackets, text, at)
}

// The term that begins at the word `from`.
pub fn write_term(
    arities: &[u8],
    words: &[u16],
    from: usize,
    text: &mut [u8],
    at: usize,
) -> Result<Passage, TooDeep>
    ensures { Passed text.old at (term_at edition_one arities.now words.now from) result text.new }
{
    let mut brackets = Brackets::<NESTING>::new();
    let mut next = at;
    for word in from..words.len() {
        let symbol = symbol_of(arities, words[word]);
        next = write_word(symbol, &mut brackets, text, next).ok_or(TooDeep { word })?;
        if brackets.innermost().is_none() {
            return Ok(Passage {
                word: word + 1,
                at: next,
            });
        }
    }
    Ok(Passage {
        word: from.max(words.len()),
        at: next,
    })
}
