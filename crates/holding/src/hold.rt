// Equations that stand in words, with the values of their unknowns after them: do they hold?
ghost use Rattle.std.specs.Prelude.{◌≡◌, length};
ghost use Rattle.terms.specs.Bounds.{edition_one};
ghost use Rattle.laws.specs.Values.{in_order};
ghost use Rattle.term_places.specs.Places.{terms_from};
ghost use Rattle.term_places.specs.Lent.{of};
ghost use Rattle.holding.specs.Holding.{holding, all_holding, starts_from, Equations, Standings, WithValues};
ghost use Rattle.settling.specs.Settling.{AllSettled};

use crate::spread::spreads_little;
use compare::compare::same;
use ranks::ranks::rank_all;
use settling::settle::settle;
use term_places::classes::{blank, clear, number};
use term_places::places::{Held, term_end};

// Do the first so many equations of the words hold?
fn each_holds(held: &Held, settled: &[u16], labels: &mut [u16], equations: usize) -> bool
    requires equations { Equations (of held.now) labels.old equations }
    requires all_settled { AllSettled (of held.now) settled.now labels.old }
    ensures { result ≡ all_holding (of held.now) equations }
{
    let mut left: usize = 0;
    for _ in 0..equations {
        let right = held.term_end(left);
        if same(
            held,
            settled,
            labels,
            held.resolve(left),
            held.resolve(right),
        ) {
            left = held.term_end(right);
        } else {
            return false;
        }
    }
    true
}

// The same where no term is shared by many places.
pub fn all_hold(held: &Held, labels: &mut [u16], equations: usize) -> bool
    requires { Equations (of held.now) labels.old equations }
    ensures { result ≡ all_holding (of held.now) equations }
{
    number(labels);
    each_holds(held, &[], labels, equations)
}

// The same in tables lent for it.
fn settled_in(
    held: &Held,
    ranks: &mut [u16],
    settled: &mut [u16],
    labels: &mut [u16],
    equations: usize,
) -> bool
    requires equations { Equations (of held.now) labels.old equations }
    requires ranks_len { length ranks.old ≡ length held.now.words.now }
    requires settled_len { length settled.old ≡ length held.now.words.now }
    ensures { result ≡ all_holding (of held.now) equations }
{
    number(labels);
    clear(ranks);
    rank_all(held, ranks);
    clear(settled);
    settle(held, ranks, settled, labels);
    each_holds(held, settled, labels, equations)
}

// The same where places are settled first.
fn settled_hold(held: &Held, labels: &mut [u16], equations: usize) -> bool
    requires { Equations (of held.now) labels.old equations }
    ensures { result ≡ all_holding (of held.now) equations }
{
    let mut ranks = blank();
    let mut settled = blank();
    let n = held.words.len();
    settled_in(held, &mut ranks[..n], &mut settled[..n], labels, equations)
}

// Notes where the values start, the first of them at `from`.
fn place_values(arities: &[u8], words: &[u16], from: usize, starts: &mut [u16])
    requires { Standings edition_one arities.now words.now from (length starts.old) }
    ensures { starts.new ≡ starts_from edition_one arities.now words.now from (length starts.old) }
{
    let mut p = from;
    for start in starts.iter_mut() {
        // Kept: `as`, for the number is known to fit, and `try_from` would bring an error that can't come.
        *start = p as u16;
        p = term_end(arities, words, p);
    }
}

// Do the first so many equations hold with the values that start at `from`?
pub fn values_hold(
    arities: &[u8],
    words: &[u16],
    from: usize,
    starts: &mut [u16],
    labels: &mut [u16],
    equations: usize,
) -> bool
    requires with_values { WithValues edition_one arities.now words.now (length starts.old) from equations }
    requires labels_len { length labels.old ≡ length words.now }
    ensures { result ≡ holding (in_order (terms_from edition_one arities.now words.now from)) equations (terms_from edition_one arities.now words.now 0) }
{
    place_values(arities, words, from, starts);
    let held = Held {
        arities,
        words,
        starts,
    };
    if spreads_little(&words[..from], starts, words.len()) {
        return all_hold(&held, labels, equations);
    }
    settled_hold(&held, labels, equations)
}
