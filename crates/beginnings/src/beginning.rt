// How a term begins: its name, its first bracket, or the empty set. At a symbol the refusals come in the order of SPECIFICATION 4.4.
ghost use Rattle.std.specs.Prelude.{◌≡◌, List, ℕ, ◌<◌, length};
ghost use Rattle.terms.specs.Bounds.{edition_one};
ghost use Rattle.numerals.specs.Numbers.{of_numeral};
ghost use Rattle.items.specs.Items.{name, an_unknown, arguments, a_functor, a_set, beginning, of_next};

use crate::declared::Declared;
use items::item::{Item, Next, Words, end_empty, open_member};
use numerals::bytes;
use numerals::bytes::peek;
use numerals::number::{Numeral, read_number};
use terms::bounds;
use terms::kind::{functor_word, unknown_word};
use terms::refusal::{Cause, Refusal};

// The number of the name whose letter stands at `at`; so many are declared.
fn read_name(text: &[u8], at: usize, declared: usize, words: &Words) -> Result<Numeral, Refusal>
    requires { at < length text.now }
    ensures { of_numeral result ≡ name edition_one text.now declared at (length words.now.items) }
{
    if words.is_full() {
        return Err(Refusal {
            cause: Cause::Limit,
            place: at,
        });
    }
    let read = read_number(text, at + 1)?;
    if read.value < declared {
        return Ok(read);
    }
    Err(Refusal {
        cause: Cause::Undeclared,
        place: at,
    })
}

// The unknown whose letter stands at `at`.
fn read_unknown(
    text: &[u8],
    at: usize,
    declared: &Declared<'_>,
    words: &mut Words,
) -> Result<Next, Refusal>
    requires { at < length text.now }
    ensures { of_next result words.new.items ≡ an_unknown edition_one text.now declared.now.unknowns at words.old.items }
{
    let name = read_name(text, at, declared.unknowns, words)?;
    words.push(unknown_word(name.value));
    Ok(Next::Done(name.end))
}

// What follows at `at` the name of a functor of this arity: its bracket, exactly if it has arguments.
fn open_arguments(text: &[u8], at: usize, arity: usize, depth: usize) -> Result<Next, Refusal>
    ensures { (ws : List ℕ) → of_next result ws ≡ arguments edition_one text.now depth arity at ws }
{
    if peek(text, at) == Some(bytes::ARGUMENTS_OPEN) {
        if arity == 0 {
            return Err(Refusal {
                cause: Cause::Arguments,
                place: at,
            });
        }
        if depth < bounds::NESTING {
            return Ok(Next::Due(Item::Argument(arity - 1), at + 1));
        }
        return Err(Refusal {
            cause: Cause::Nesting,
            place: at,
        });
    }
    if arity == 0 {
        return Ok(Next::Done(at));
    }
    Err(Refusal {
        cause: Cause::Arguments,
        place: at,
    })
}

// The functor whose letter stands at `at`, up to its bracket.
fn read_functor(
    text: &[u8],
    at: usize,
    declared: &Declared<'_>,
    depth: usize,
    words: &mut Words,
) -> Result<Next, Refusal>
    requires { at < length text.now }
    ensures { of_next result words.new.items ≡ a_functor edition_one text.now declared.now.arities.now.items depth at words.old.items }
{
    let name = read_name(text, at, declared.arities.len(), words)?;
    words.push(functor_word(name.value));
    open_arguments(
        text,
        name.end,
        usize::from(declared.arities[name.value]),
        depth,
    )
}

// The set whose opening bracket stands at `at`, up to its first member.
fn open_set(text: &[u8], at: usize, depth: usize, words: &mut Words) -> Result<Next, Refusal>
    requires { at < length text.now }
    ensures { of_next result words.new.items ≡ a_set edition_one text.now depth at words.old.items }
{
    if peek(text, at + 1) == Some(bytes::SET_CLOSES) {
        return end_empty(text, at + 1, words);
    }
    if depth < bounds::NESTING {
        return open_member(text, at + 1, words);
    }
    Err(Refusal {
        cause: Cause::Nesting,
        place: at,
    })
}

// A term is due at `at`, with `depth` brackets open.
pub fn begin(
    text: &[u8],
    at: usize,
    declared: &Declared<'_>,
    depth: usize,
    words: &mut Words,
) -> Result<Next, Refusal>
    ensures { of_next result words.new.items ≡ beginning edition_one text.now declared.now.unknowns declared.now.arities.now.items depth at words.old.items }
{
    match peek(text, at) {
        Some(bytes::UNKNOWN) => read_unknown(text, at, declared, words),
        Some(bytes::FUNCTOR) => read_functor(text, at, declared, depth, words),
        Some(bytes::SET_OPENS) => open_set(text, at, depth, words),
        _ => Err(Refusal {
            cause: Cause::Byte,
            place: at,
        }),
    }
}
