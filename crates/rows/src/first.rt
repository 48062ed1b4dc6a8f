// The first pending equation: where its sides stand, which step it calls for, and, where a side is an unknown, the unknown and the other side.
ghost use Rattle.std.specs.Prelude.{◌≡◌, ◌+◌, ◌≤◌, ◌<◌, ◌^◌, length};
ghost use Rattle.terms.specs.Bounds.{edition_one};
ghost use Rattle.rows.specs.First.{first_in, subject_in, header_in, rest_after, HeaderParts};

use crate::header::Header;
use crate::parts::Rest;
use crate::step::{step_for, word_at};
use crate::walk::end_of_term;
use room::layout::HEADER;
use search::steps::Step;
use terms::kind::is_unknown;

// The step, the place of the right side, and the place after it.
#[derive(Clone, Copy)]
pub struct First {
    pub step: Step,
    pub right: usize,
    pub end: usize,
}

// The first equation of the words of pending equations.
pub fn first_of(arities: &[u8], words: &[u16]) -> First
    requires { length words.now < 2 ^ 32 }
    ensures { result ≡ first_in edition_one arities.now words.now }
{
    let right = end_of_term(arities, words);
    let other = &words[right..];
    let n = end_of_term(arities, other);
    let step = step_for(arities, &words[..right], &other[..n]);
    let end = right + n;
    First { step, right, end }
}

// An unknown's word, and the place and the number of words of a term.
#[derive(Clone, Copy)]
pub struct Subject {
    pub x: u16,
    pub by: usize,
    pub m: usize,
}

// The unknown and the term of an equation whose words, from the place `at` of the room on, are these.
pub fn subject_of(words: &[u16], at: usize, right: usize, end: usize) -> Subject
    requires { (right ≤ end) × (at + right < 2 ^ 32) }
    ensures { result ≡ subject_in edition_one words.now at right end }
{
    let l = word_at(words, 0);
    if is_unknown(l) {
        let by = at + right;
        let m = end - right;
        return Subject { x: l, by, m };
    }
    let x = word_at(words, right);
    Subject {
        x,
        by: at,
        m: right,
    }
}

// The numbers of a header.
pub fn read_header(words: &[u16]) -> Header
    requires { length words.now ≡ 5 }
    ensures { result ≡ header_in words.now }
{
    Header {
        pending: usize::from(words[0]),
        pile: usize::from(words[1]),
        body: usize::from(words[2]),
        bindings: usize::from(words[3]),
        next: usize::from(words[4]),
    }
}

// What is left of a row after the first words of its body, which are of pending equations.
pub fn rest_of(from: usize, header: Header, skip: usize) -> Rest
    requires { HeaderParts from header skip }
    ensures { result ≡ rest_after from header skip }
{
    Rest {
        at: from + HEADER + skip,
        pending: header.pending - skip,
        pile: header.pile,
        bound: header.body - header.pending - header.pile,
        bindings: header.bindings,
    }
}
