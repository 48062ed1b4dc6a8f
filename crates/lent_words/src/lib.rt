// The check of lent words: a question, a row of ground terms, a list of answers. Each takes any input, and answers what `Check` of checks' specs/ says:
// counts and arities first, then the number of words, then the words one by one.
#![tactic(auto)]

ghost use Rattle.std.specs.Prelude.{◌≡◌};
ghost use Rattle.terms.specs.Bounds.{edition_one};
ghost use Rattle.checks.specs.Check.{arities_above, check_terms, check_question, check_row, check_answers};

use checks::check::check_words;
use terms::bounds::{ARITY, EQUATIONS, FUNCTORS, PATH_UNKNOWNS, SYMBOLS, UNKNOWNS};
use terms::refusal::{Cause, Refusal};

// What is told where a count or an arity is above its limit.
const ABOVE: Refusal = Refusal {
    cause: Cause::Limit,
    place: 0,
};

// Is a count of functors or an arity above its limit?
fn above_limits(arities: &[u8]) -> bool
    ensures { result ≡ arities_above edition_one arities.now }
{
    FUNCTORS < arities.len() || arities.iter().any(|arity| ARITY < *arity)
}

// The words of so many terms, in no more words than one call may lend.
fn check_terms(arities: &[u8], unknowns: usize, terms: usize, words: &[u16]) -> Result<(), Refusal>
    ensures { result ≡ check_terms edition_one arities.now unknowns terms words.now }
{
    if SYMBOLS < words.len() {
        return Err(Refusal {
            cause: Cause::Limit,
            place: SYMBOLS,
        });
    }
    check_words(arities, unknowns, words, 0, terms)
}

// A question: two terms for each equation, with nothing after them.
pub fn check_question(
    unknowns: usize,
    arities: &[u8],
    equations: usize,
    words: &[u16],
) -> Result<(), Refusal>
    ensures { result ≡ check_question edition_one unknowns arities.now equations words.now }
{
    if UNKNOWNS < unknowns || above_limits(arities) || EQUATIONS < equations {
        return Err(ABOVE);
    }
    check_terms(arities, unknowns, 2 * equations, words)
}

// A row of so many ground terms.
pub fn check_row(arities: &[u8], terms: usize, words: &[u16]) -> Result<(), Refusal>
    ensures { result ≡ check_row edition_one arities.now terms words.now }
{
    if above_limits(arities) {
        return Err(ABOVE);
    }
    check_terms(arities, 0, terms, words)
}

// A list of so many answers.
pub fn check_answers(arities: &[u8], answers: usize, words: &[u16]) -> Result<(), Refusal>
    ensures { result ≡ check_answers edition_one arities.now answers words.now }
{
    if above_limits(arities) {
        return Err(ABOVE);
    }
    check_words(arities, PATH_UNKNOWNS, words, answers, 0)
}
