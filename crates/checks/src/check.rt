// The check of words, one by one: the first that can't stand where it is, or the place where words stop or are left over.
ghost use Rattle.std.specs.Prelude.{◌≡◌, ◌≤◌, length, drop};
ghost use Rattle.terms.specs.Bounds.{edition_one};
ghost use Rattle.checks.specs.Check.{follow, checked};
ghost use Rattle.checks.specs.Short.{stopped};

use terms::kind::{Kind, kind_of};
use terms::refusal::{Cause, Refusal};

// How many terms follow a word where a term is due, with so many unknowns allowed; or why it can't stand there.
fn what_follows(arities: &[u8], unknowns: usize, word: u16) -> Result<u8, Cause>
    ensures { result ≡ follow edition_one arities.now unknowns word }
{
    match kind_of(word) {
        Kind::Empty => Ok(0),
        Kind::Member => Ok(2),
        Kind::Unknown(i) => {
            if (i as usize) < unknowns {
                return Ok(0);
            }
            Err(Cause::WordsUndeclared)
        }
        Kind::Functor(k) => {
            let k = k as usize;
            if k < arities.len() {
                return Ok(arities[k]);
            }
            Err(Cause::WordsUndeclared)
        }
        Kind::Nothing => Err(Cause::WordsMeaningless),
    }
}

// More terms are due than words are left from this place on: the first word that can't stand, or the words stop. No counter can overflow.
fn check_short(arities: &[u8], unknowns: usize, words: &[u16], from: usize) -> Result<(), Refusal>
    requires { from ≤ length words.now }
    ensures { result ≡ stopped edition_one arities.now unknowns (drop from words.now) from }
{
    for place in from..words.len() {
        if let Err(cause) = what_follows(arities, unknowns, words[place]) {
            return Err(Refusal { cause, place });
        }
    }
    Err(Refusal {
        cause: Cause::WordsStop,
        place: words.len(),
    })
}

// The words with so many answers and terms due. An answer is its count of bindings, a binding its unknown's number and then one term.
pub fn check_words(
    arities: &[u8],
    unknowns: usize,
    words: &[u16],
    answers: usize,
    terms: usize,
) -> Result<(), Refusal>
    ensures { result ≡ checked edition_one arities.now unknowns words.now 0 answers 0 terms }
{
    if words.len() < terms {
        return check_short(arities, unknowns, words, 0);
    }
    let mut answers_due = answers;
    let mut bindings_due: usize = 0;
    // Where the terms that are due end, unless a word asks for more.
    let mut terms_end = terms;
    for (place, word) in words.iter().enumerate() {
        if place < terms_end {
            match what_follows(arities, unknowns, *word) {
                Ok(more) => {
                    terms_end += usize::from(more);
                    if words.len() < terms_end {
                        return check_short(arities, unknowns, words, place + 1);
                    }
                }
                Err(cause) => return Err(Refusal { cause, place }),
            }
        } else if 0 < bindings_due {
            if unknowns <= usize::from(*word) {
                return Err(Refusal {
                    cause: Cause::WordsUndeclared,
                    place,
                });
            }
            bindings_due -= 1;
            terms_end = place + 2;
        } else if 0 < answers_due {
            answers_due -= 1;
            bindings_due = usize::from(*word);
        } else {
            return Err(Refusal {
                cause: Cause::WordsLeft,
                place,
            });
        }
    }
    if words.len() < terms_end || 0 < bindings_due || 0 < answers_due {
        return Err(Refusal {
            cause: Cause::WordsStop,
            place: words.len(),
        });
    }
    Ok(())
}
