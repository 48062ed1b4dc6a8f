// The rank of the term at each place, values put in: how deep members and arguments stand in it. Equal terms have one rank.
ghost use Rattle.std.specs.Prelude.{◌≡◌, ◌+◌};
ghost use Rattle.terms.specs.Bounds.{edition_one};
ghost use Rattle.term_places.specs.Lent.{of};
ghost use Rattle.term_places.specs.Places.{end};
ghost use Rattle.ranks.specs.Ranks.{Ranked, RankTold, Above, OfSet, OfFunctor};

use term_places::classes::NONE;
use term_places::places::Held;
use terms::kind::{Kind, kind_of, terms_after};

// One more, where the rank is known.
fn above(rank: u16) -> u16
    ensures { Above rank result }
{
    rank.saturating_add(1)
}

// A set's rank, by its member's and its rest's; the rest stands at `after`.
fn rank_of_set(held: &Held, ranks: &[u16], p: usize, after: usize) -> u16
    requires of_set { OfSet (of held.now) ranks.now p }
    requires after { after ≡ end edition_one held.now.arities.now held.now.words.now (p + 1) }
    ensures { RankTold (of held.now) p result }
{
    let member = ranks[held.resolve(p + 1)];
    let rest = ranks[held.resolve(after)];
    above(member).max(rest)
}

// A functor's, by its arguments'.
fn rank_of_functor(held: &Held, ranks: &[u16], p: usize) -> u16
    requires { OfFunctor (of held.now) ranks.now p }
    ensures { RankTold (of held.now) p result }
{
    let mut rank: u16 = 0;
    let mut x = p + 1;
    let due = terms_after(held.arities, held.words[p]);
    for _ in 0..due {
        rank = rank.max(ranks[held.resolve(x)]);
        x = held.term_end(x);
    }
    above(rank)
}

// Ranks for all places but rests, which are compared only with their sets. A place's rank is told by those of later ones.
pub fn rank_all(held: &Held, ranks: &mut [u16])
    requires { Ranked (of held.now) ranks.old }
    ensures { Ranked (of held.now) ranks.new }
{
    for p in (0..held.words.len()).rev() {
        match kind_of(held.words[p]) {
            Kind::Empty => ranks[p] = 0,
            Kind::Member => {
                let rest = held.term_end(p + 1);
                ranks[p] = rank_of_set(held, ranks, p, rest);
                ranks[rest] = NONE;
            }
            Kind::Functor(_) => ranks[p] = rank_of_functor(held, ranks, p),
            Kind::Unknown(_) | Kind::Nothing => ranks[p] = NONE,
        }
    }
}
