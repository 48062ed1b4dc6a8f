// A walk over words with a counter of terms still due: where terms end. Each word is read once, and nothing recurses. The words may be any; `Walk` of
// terms' specs/ says what it finds in the words of formed terms.
ghost use Rattle.std.specs.Prelude.{◌≡◌, ◌+◌, ◌≤◌, length, drop};
ghost use Rattle.terms.specs.Bounds.{edition_one};
ghost use Rattle.terms.specs.Laws.Walk.{span};

use terms::kind::terms_after;

// The place after so many terms, or the length where words stop before that.
// Kept: the length is the place where the walk ends, as the definition `span` counts it, and no lack of one; docs/PROMISES.md names this contract. The place is
// counted by hand: a `for` over the places, which tests the counter in each turn, cost `equal` and `solves` a third more time.
pub fn terms_end(arities: &[u8], words: &[u16], from: usize, terms: usize) -> usize
    requires { from ≤ length words.now }
    ensures { result ≡ from + span edition_one arities.now (drop from words.now) terms }
{
    let mut end = from;
    let mut due = terms;
    while 0 < due {
        // more are due than words are left: a word lowers the counter by one at most
        if words.len() - end < due {
            return words.len();
        }
        due = due - 1 + terms_after(arities, words[end]) as usize;
        end += 1;
    }
    end
}
