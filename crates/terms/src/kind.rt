// What a word stands for, how many terms follow it, and the words of unknowns and functors. No other file of code knows where their words begin and end.
ghost use Rattle.std.specs.Prelude.{◌≡◌, ◌+◌, ◌-◌, ◌≤◌, ◌<◌};
ghost use Rattle.terms.specs.Bounds.{edition_one, FIRST_UNKNOWN, UNKNOWN_WORDS, FIRST_FUNCTOR, FUNCTOR_WORDS};
ghost use Rattle.terms.specs.Kind.{kind, takes, within};

use crate::bounds::{AFTER_FUNCTORS, EMPTY, FIRST_FUNCTOR, FIRST_UNKNOWN, MEMBER};

// The empty set, a member adding, an unknown or a functor by its number; or nothing.
// Kept: `Nothing` is a row of the table that the definition `kind` states, and every match would have one level more for `Option<Kind>`.
#[derive(Clone, Copy)]
pub enum Kind {
    Empty,
    Member,
    Unknown(u16),
    Functor(u16),
    Nothing,
}

pub fn kind_of(word: u16) -> Kind
    ensures { result ≡ kind edition_one word }
{
    match word {
        EMPTY => Kind::Empty,
        MEMBER => Kind::Member,
        FIRST_UNKNOWN..FIRST_FUNCTOR => Kind::Unknown(word - FIRST_UNKNOWN),
        FIRST_FUNCTOR..AFTER_FUNCTORS => Kind::Functor(word - FIRST_FUNCTOR),
        _ => Kind::Nothing,
    }
}

// Whether a word is an unknown's.
pub fn is_unknown(word: u16) -> bool
    ensures { result ≡ within FIRST_UNKNOWN UNKNOWN_WORDS word }
{
    (FIRST_UNKNOWN..FIRST_FUNCTOR).contains(&word)
}

// How many terms follow a word.
pub fn terms_after(arities: &[u8], word: u16) -> u8
    ensures { result ≡ takes edition_one arities.now word }
{
    match word {
        MEMBER => 2,
        FIRST_FUNCTOR.. => arities
            .get(usize::from(word - FIRST_FUNCTOR))
            .copied()
            .unwrap_or(0),
        _ => 0,
    }
}

// The word of unknown i, and the number of the unknown that has a word.
// Kept: `as`, for a contract bounds the number, and `try_from` would bring an error that can't come.
// Kept: beside `functor_word`: each has its own first word and limit in its clause, and no other file knows these.
pub fn unknown_word(i: usize) -> u16
    requires { i < UNKNOWN_WORDS }
    ensures { result ≡ FIRST_UNKNOWN + i }
{
    FIRST_UNKNOWN + i as u16
}

pub fn unknown_number(word: u16) -> u16
    requires { FIRST_UNKNOWN ≤ word }
    ensures { result ≡ word - FIRST_UNKNOWN }
{
    word - FIRST_UNKNOWN
}

// The word of functor k.
// Kept: `as`, for a contract bounds the number, and `try_from` would bring an error that can't come.
// Kept: as `unknown_word`.
pub fn functor_word(k: usize) -> u16
    requires { k < FUNCTOR_WORDS }
    ensures { result ≡ FIRST_FUNCTOR + k }
{
    FIRST_FUNCTOR + k as u16
}
