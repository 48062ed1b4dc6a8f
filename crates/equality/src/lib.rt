// How two terms are compared in words: `equal` tests two ground terms, `solves` whether given ground values solve a question. Each takes any input, and
// writes nothing.
//
// A client's contracts cite `specs/Answering.antt`, what the two answer. Crate `compare` compares the terms at two places, and `holding` goes through equations.
#![tactic(auto)]

ghost use Rattle.std.specs.Prelude.{◌≡◌, drop, Ok};
ghost use Rattle.terms.specs.Bounds.{edition_one};
ghost use Rattle.checks.specs.Check.{check_question, check_row};
ghost use Rattle.terms.specs.Reading.{read, top, question_of};
ghost use Rattle.laws.specs.Equal.{equal as test};
ghost use Rattle.laws.specs.Values.{in_order, solves_test};
ghost use Rattle.equality.specs.Answering.{equal_answer, solves_answer};

use holding::hold::{all_hold, values_hold};
use lent_words::{check_question, check_row};
use room::copy_in;
use term_places::classes::blank;
use term_places::places::Held;
use terms::bounds::UNKNOWNS;
use terms::refusal::Refusal;

// Are the two ground terms of a row equal?
pub fn equal(arities: &[u8], row: &[u16]) -> Result<bool, Refusal>
    ensures { result ≡ equal_answer edition_one arities.now row.now }
{
    check_row(arities, 2, row)?;
    Ok(both_equal(arities, row))
}

// The two terms as one equation without unknowns.
fn both_equal(arities: &[u8], row: &[u16]) -> bool
    requires { check_row edition_one arities.now 2 row.now ≡ Ok tt }
    ensures { result ≡ test (top (read edition_one arities.now row.now)) (top (drop 1 (read edition_one arities.now row.now))) }
{
    let held = Held {
        arities,
        words: row,
        starts: &[],
    };
    let mut labels = blank();
    let n = row.len();
    all_hold(&held, &mut labels[..n], 1)
}

// Do a row's ground values, one for each unknown in order, solve a question?
pub fn solves(
    unknowns: usize,
    arities: &[u8],
    equations: usize,
    words: &[u16],
    row: &[u16],
) -> Result<bool, Refusal>
    ensures { result ≡ solves_answer edition_one unknowns arities.now equations words.now row.now }
{
    check_question(unknowns, arities, equations, words)?;
    check_row(arities, unknowns, row)?;
    Ok(values_solve(unknowns, arities, equations, words, row))
}

// The question's words with the row's after them, so that one place tells which word is meant.
fn values_solve(
    unknowns: usize,
    arities: &[u8],
    equations: usize,
    words: &[u16],
    row: &[u16],
) -> bool
    requires words_value { check_question edition_one unknowns arities.now equations words.now ≡ Ok tt }
    requires row_value { check_row edition_one arities.now unknowns row.now ≡ Ok tt }
    ensures { result ≡ solves_test (in_order (read edition_one arities.now row.now)) (question_of edition_one unknowns arities.now words.now).equations }
{
    let mut held = blank();
    let mut starts = [0u16; UNKNOWNS];
    let mut labels = blank();
    let n = words.len();
    let end = n + row.len();
    copy_in(&mut held, 0, words);
    copy_in(&mut held, n, row);
    values_hold(
        arities,
        &held[..end],
        n,
        &mut starts[..unknowns],
        &mut labels[..end],
        equations,
    )
}
