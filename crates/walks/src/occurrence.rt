// Whether and where an unknown occurs in a term: one walk over its words, with a counter of the terms due before the next rest.
ghost use Rattle.std.specs.Prelude.{◌≡◌, ◌<◌, ◌^◌, length, drop};
ghost use Rattle.terms.specs.Bounds.{edition_one};
ghost use Rattle.terms.specs.Laws.Walk.{Starts};
ghost use Rattle.walks.specs.Occurrence.{in_terms, in_rest};

use terms::bounds::MEMBER;
use terms::kind::terms_after;

// Not at all; as the tail and nowhere else; or in a member or an argument.
#[derive(Clone, Copy)]
pub enum Occurrence {
    Absent,
    Tail,
    Inside,
}

// In the terms that the words begin with, so many: the arguments of a kernel.
fn in_arguments(arities: &[u8], words: &[u16], terms: u8, unknown: u16) -> Occurrence
    requires { length words.now < 2 ^ 32 }
    ensures { result ≡ in_terms edition_one arities.now unknown words.now terms }
{
    let mut due = usize::from(terms);
    for word in words {
        if due == 0 {
            break;
        }
        if *word == unknown {
            return Occurrence::Inside;
        }
        due = due - 1 + usize::from(terms_after(arities, *word));
    }
    Occurrence::Absent
}

// In the term that starts at a place. The unknown is given by its word.
pub fn find_unknown(arities: &[u8], words: &[u16], from: usize, unknown: u16) -> Occurrence
    requires { Starts words.now from }
    ensures { result ≡ in_rest edition_one arities.now unknown (drop from words.now) 0 }
{
    let mut due: usize = 0;
    for place in from..words.len() {
        let word = words[place];
        if 0 < due {
            if word == unknown {
                return Occurrence::Inside;
            }
            due = due - 1 + usize::from(terms_after(arities, word));
        } else {
            if word == unknown {
                return Occurrence::Tail;
            }
            if word != MEMBER {
                return in_arguments(
                    arities,
                    &words[place + 1..],
                    terms_after(arities, word),
                    unknown,
                );
            }
            due = 1;
        }
    }
    Occurrence::Absent
}
