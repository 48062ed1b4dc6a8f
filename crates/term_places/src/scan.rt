// The second half of a comparison of two sets whose members were all compared: labels tell which are equal.
ghost use Rattle.std.specs.Prelude.{◌≡◌};
ghost use Rattle.terms.specs.Term.{members};
ghost use Rattle.term_places.specs.Places.{valued};
ghost use Rattle.term_places.specs.Lent.{of};
ghost use Rattle.term_places.specs.Classes.{some_equals, each_equalled, Compared, ComparedWith};

use crate::places::Held;
use terms::bounds::MEMBER;

// Does some member at p equal the one at m?
fn covered(held: &Held, labels: &[u16], p: usize, m: usize) -> bool
    requires { ComparedWith (of held.now) labels.now p m }
    ensures { result ≡ some_equals (members (valued (of held.now) p)) (valued (of held.now) m) }
{
    let mut x = p;
    // Kept: the rest of a set may stand at any place, so the walk ends where no member stands, and no `for` counts it.
    while held.words[x] == MEMBER {
        if labels[held.resolve(x + 1)] == labels[m] {
            return true;
        }
        x = held.rest(x);
    }
    false
}

// Does each member at q equal some at p?
pub fn covers(held: &Held, labels: &[u16], p: usize, q: usize) -> bool
    requires { Compared (of held.now) labels.now p q }
    ensures { result ≡ each_equalled (members (valued (of held.now) p)) (members (valued (of held.now) q)) }
{
    let mut y = q;
    // Kept: the rest of a set may stand at any place, so the walk ends where no member stands, and no `for` counts it.
    while held.words[y] == MEMBER {
        if covered(held, labels, p, held.resolve(y + 1)) {
            y = held.rest(y);
        } else {
            return false;
        }
    }
    true
}
