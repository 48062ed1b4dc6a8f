// Which step an equation calls for, read off the words of its two sides.
ghost use Rattle.std.specs.Prelude.{◌≡◌, ◌<◌, ◌^◌, length, get_or};
ghost use Rattle.terms.specs.Bounds.{edition_one};
ghost use Rattle.rows.specs.Stepping.{tails_of, kernel_word, meet_words, compare_words, step_of};

use crate::walk::{is_in, place_of_kernel};
use search::steps::{Step, Tails};
use terms::bounds::{EMPTY, MEMBER};
use terms::kind::is_unknown;
use walks::occurrence::{Occurrence, find_unknown};

// The word at a place, or 0 past the end.
// Kept: 0, as `get_or words place 0` says, which the definitions of a step read.
pub fn word_at(words: &[u16], place: usize) -> u16
    ensures { result ≡ get_or words.now place 0 }
{
    words.get(place).copied().unwrap_or(0)
}

// The first word of the kernel.
fn word_of_kernel(arities: &[u8], words: &[u16]) -> u16
    requires { length words.now < 2 ^ 32 }
    ensures { result ≡ kernel_word edition_one arities.now words.now }
{
    word_at(words, place_of_kernel(arities, words))
}

// The tails of two sides, by the first words of their kernels.
pub fn tails_by_words(left: u16, right: u16) -> Tails
    ensures { result ≡ tails_of edition_one left right }
{
    match (is_unknown(left), is_unknown(right)) {
        (true, true) if left == right => Tails::Same,
        (true, true) => Tails::Different,
        (true, false) => Tails::Left,
        (false, true) => Tails::Right,
        (false, false) => Tails::Neither,
    }
}

// x = t, where t is no unknown. Where x is none of the words, which is so most often, they need no walk.
fn meet(arities: &[u8], x: u16, t: &[u16], tails: Tails) -> Step
    requires { length t.now < 2 ^ 32 }
    ensures { result ≡ meet_words edition_one arities.now x t.now tails }
{
    if !is_in(t, x) {
        return Step::Bind(tails);
    }
    match find_unknown(arities, t, 0, x) {
        Occurrence::Absent => Step::Bind(tails),
        Occurrence::Tail => Step::Postpone(tails),
        Occurrence::Inside => Step::Dead,
    }
}

// Neither side is an unknown.
fn compare(arities: &[u8], left: &[u16], right: &[u16]) -> Step
    requires { length left.now < 2 ^ 32 × length right.now < 2 ^ 32 }
    ensures { result ≡ compare_words edition_one arities.now left.now right.now }
{
    let first = word_at(left, 0);
    if first != word_at(right, 0) {
        return Step::Dead;
    }
    match first {
        EMPTY => Step::Drop,
        MEMBER => Step::Split(tails_by_words(
            word_of_kernel(arities, left),
            word_of_kernel(arities, right),
        )),
        _ => Step::Decompose,
    }
}

pub fn step_for(arities: &[u8], left: &[u16], right: &[u16]) -> Step
    requires { length left.now < 2 ^ 32 × length right.now < 2 ^ 32 }
    ensures { result ≡ step_of edition_one arities.now left.now right.now }
{
    let l = word_at(left, 0);
    let r = word_at(right, 0);
    match (is_unknown(l), is_unknown(r)) {
        (true, true) if l == r => Step::Drop,
        (true, true) => Step::Bind(Tails::Different),
        (true, false) => meet(
            arities,
            l,
            right,
            tails_by_words(l, word_of_kernel(arities, right)),
        ),
        (false, true) => meet(
            arities,
            r,
            left,
            tails_by_words(word_of_kernel(arities, left), r),
        ),
        (false, false) => compare(arities, left, right),
    }
}
