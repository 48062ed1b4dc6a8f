// The comparison of the terms at two places, values put in. It recurses into members and arguments; the sum of the two terms' symbols falls.
// A pair found equal gets one label, so that it is not compared again; two settled places with different labels differ.
ghost use Rattle.laws.specs.Equal.{equal, kernels_equal};
ghost use Rattle.term_places.specs.Places.{valued};
ghost use Rattle.term_places.specs.Lent.{of};
ghost use Rattle.term_places.specs.Classes.{Comparing, ComparingKernels, Settled, Told, Same, Meets, EachMeets};

use term_places::classes::{both_settled, join};
use term_places::places::Held;
use term_places::scan::covers;
use terms::bounds::MEMBER;
use terms::kind::terms_after;

// Are the terms at p and q equal?
#[cycle(compare_each_meets_kernels_meets_same)]
pub fn same(held: &Held, settled: &[u16], labels: &mut [u16], p: usize, q: usize) -> bool
    requires comparing { Comparing (of held.now) labels.old p q }
    requires settled { Settled (of held.now) settled.now labels.old }
    ensures { Same (of held.now) labels.old labels.new p q result }
{
    if labels[p] == labels[q] {
        return true;
    }
    if both_settled(settled, p, q) {
        return false;
    }
    if compare(held, settled, labels, p, q) {
        let old = labels[p];
        let new = labels[q];
        join(labels, old, new);
        return true;
    }
    false
}

// The same for places that have different labels: the kernels are equal, and each member of either equals some member of the other.
#[cycle(compare_each_meets_kernels_meets_same)]
fn compare(held: &Held, settled: &[u16], labels: &mut [u16], p: usize, q: usize) -> bool
    requires comparing { Comparing (of held.now) labels.old p q }
    requires settled { Settled (of held.now) settled.now labels.old }
    ensures { Told (of held.now) labels.old labels.new (equal (valued (of held.now) p) (valued (of held.now) q)) result }
{
    let k = held.kernel(p);
    let l = held.kernel(q);
    if kernels(held, settled, labels, k, l) && each_meets(held, settled, labels, p, q) {
        return covers(held, labels, p, q);
    }
    false
}

// Are the kernels at p and q both empty sets, or the same functor with equal arguments?
#[cycle(compare_each_meets_kernels_meets_same)]
fn kernels(held: &Held, settled: &[u16], labels: &mut [u16], p: usize, q: usize) -> bool
    requires comparing_kernels { ComparingKernels (of held.now) labels.old p q }
    requires settled { Settled (of held.now) settled.now labels.old }
    ensures { Told (of held.now) labels.old labels.new (kernels_equal (valued (of held.now) p) (valued (of held.now) q)) result }
{
    let word = held.words[p];
    if word != held.words[q] {
        return false;
    }
    let mut x = p + 1;
    let mut y = q + 1;
    let due = terms_after(held.arities, word);
    for _ in 0..due {
        if same(held, settled, labels, held.resolve(x), held.resolve(y)) {
            x = held.term_end(x);
            y = held.term_end(y);
        } else {
            return false;
        }
    }
    true
}

// Does each member at p equal some member at q?
#[cycle(compare_each_meets_kernels_meets_same)]
fn each_meets(held: &Held, settled: &[u16], labels: &mut [u16], p: usize, q: usize) -> bool
    requires comparing { Comparing (of held.now) labels.old p q }
    requires settled { Settled (of held.now) settled.now labels.old }
    ensures { EachMeets (of held.now) labels.old labels.new p q result }
{
    let mut x = p;
    // Kept: the rest of a set may stand at any place, so the walk ends where no member stands, and no `for` counts it.
    while held.words[x] == MEMBER {
        if meets(held, settled, labels, held.resolve(x + 1), q) {
            x = held.rest(x);
        } else {
            return false;
        }
    }
    true
}

// Does the term at m equal some member at q? It is compared with every one, so that all its equals get its label.
#[cycle(compare_each_meets_kernels_meets_same)]
fn meets(held: &Held, settled: &[u16], labels: &mut [u16], m: usize, q: usize) -> bool
    requires comparing { Comparing (of held.now) labels.old m q }
    requires settled { Settled (of held.now) settled.now labels.old }
    ensures { Meets (of held.now) labels.old labels.new m q result }
{
    let mut met = false;
    let mut y = q;
    // Kept: the rest of a set may stand at any place, so the walk ends where no member stands, and no `for` counts it.
    while held.words[y] == MEMBER {
        if same(held, settled, labels, m, held.resolve(y + 1)) {
            met = true;
        }
        y = held.rest(y);
    }
    met
}
