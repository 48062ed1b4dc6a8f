// Places are settled: each is compared with the settled ones of its rank, the last place first, so that what is inside two terms is settled before they
// are compared. After that labels alone tell whether two settled places hold equal terms.
ghost use Rattle.term_places.specs.Lent.{of};
ghost use Rattle.settling.specs.Settling.{Settling, Settles, Unsettled, AllSettled};

use compare::compare::same;
use term_places::classes::NONE;
use term_places::places::Held;

// Compares the term at p, which has this rank, with the settled ones until one is equal.
fn meet_settled(held: &Held, settled: &[u16], labels: &mut [u16], p: usize, rank: u16)
    requires { Settling (of held.now) settled.now labels.old p rank }
    ensures { Settles (of held.now) settled.now labels.old labels.new p }
{
    // Where no later place has this rank, as in deep terms, nothing is to be compared; `contains` looks at many places at a time.
    if !settled[p + 1..].contains(&rank) {
        return;
    }
    for q in p + 1..settled.len() {
        if settled[q] == rank && same(held, settled, labels, p, q) {
            return;
        }
    }
}

// Settles all places whose rank is known.
pub fn settle(held: &Held, ranks: &[u16], settled: &mut [u16], labels: &mut [u16])
    requires { Unsettled (of held.now) ranks.now settled.old labels.old }
    ensures { AllSettled (of held.now) settled.new labels.new }
{
    for p in (0..held.words.len()).rev() {
        let rank = ranks[p];
        if rank < NONE {
            meet_settled(held, settled, labels, p, rank);
            settled[p] = rank;
        }
    }
}
