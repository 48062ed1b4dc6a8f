// Steps that leave no choice, and that no function of `bind` or `keep` is by itself: an equation is postponed, or replaced by its argument equations.
// Kept: places, sizes and the next unknown's number are passed apart. As records they cost the run a quarter of its speed (docs/DECISIONS.md).
ghost use Rattle.std.specs.Prelude.{◌≡◌, ◌++◌, length, ◌+◌};
ghost use Rattle.room.specs.Room.{seg, put};
ghost use Rattle.terms.specs.Bounds.{edition_one};
ghost use Rattle.rows.specs.Terms.Ended.{term_end};
ghost use Rattle.rows.specs.Header.{header_of};
ghost use Rattle.binding.specs.Keep.{kept_piece, kept_header};
ghost use Rattle.rows.specs.Made.{of_sized};
ghost use Rattle.rows.specs.Finished.{Finished};
ghost use Rattle.plain_steps.specs.StepParts.{postponed, PostponeParts, PairParts, DecomposeParts, paired, decomposed};

use binding::keep::keep;
use room::layout::HEADER;
use rows::first::Subject;
use rows::parts::Rest;
use rows::walk::end_of_term;

// The equation moves to the end of the pile. Its entry, the unknown's word and the term's words, is laid out at a place of its own first.
pub fn postpone(
    room: &mut [u16],
    rest: Rest,
    subject: Subject,
    entry: usize,
    to: usize,
    size: usize,
    next: usize,
) -> Option<()>
    requires { PostponeParts room.old rest subject entry to size next }
    ensures { Finished (postponed room.old subject entry) to 0 size (kept_piece (postponed room.old subject entry) rest entry (subject.m + 1)) (header_of (kept_header rest 0 (subject.m + 1) next)) (of_sized result) room.new }
{
    let by = subject.by;
    let m = subject.m;
    room[entry] = subject.x;
    room::copy(room, by, m, entry + 1);
    keep(room, rest, entry, m + 1, to, 0, size, next)
}

// The numbers of words of two arguments.
#[derive(Clone, Copy)]
pub struct Pair {
    pub left: usize,
    pub right: usize,
}

// Writes the first of the terms in the n words at `left`, and then the first of those in the m words at `right`.
fn pair_first(
    arities: &[u8],
    room: &mut [u16],
    left: usize,
    n: usize,
    right: usize,
    m: usize,
    to: usize,
) -> Pair
    requires { PairParts room.old left n right m to }
    ensures { (result.left ≡ term_end edition_one arities.now (seg room.old left n)) × (result.right ≡ term_end edition_one arities.now (seg room.old right m)) × (room.new ≡ put room.old to (seg room.old left result.left ++ seg room.old right result.right)) }
{
    let after = left + n;
    let last = right + m;
    let e = end_of_term(arities, &room[left..after]);
    let g = end_of_term(arities, &room[right..last]);
    room::copy(room, left, e, to);
    room::copy(room, right, g, to + e);
    Pair { left: e, right: g }
}

// Writes k terms of each side in turn, and answers how many words they are.
fn pair_all(
    arities: &[u8],
    room: &mut [u16],
    k: usize,
    left: usize,
    n: usize,
    right: usize,
    m: usize,
    to: usize,
) -> usize
    requires { PairParts room.old left n right m to }
    ensures value { result ≡ length (paired edition_one arities.now k (seg room.old left n) (seg room.old right m)) }
    ensures room_after { room.new ≡ put room.old to (paired edition_one arities.now k (seg room.old left n) (seg room.old right m)) }
{
    let mut l = 0;
    let mut r = 0;
    for _ in 0..k {
        let two = pair_first(arities, room, left + l, n - l, right + r, m - r, to + l + r);
        l += two.left;
        r += two.right;
    }
    l + r
}

// The equation of two terms of one functor is replaced by those of their k arguments, which are the n words at `left` and the m words at `right`.
pub fn decompose(
    arities: &[u8],
    room: &mut [u16],
    rest: Rest,
    k: usize,
    left: usize,
    n: usize,
    right: usize,
    m: usize,
    to: usize,
    size: usize,
    next: usize,
) -> Option<()>
    requires { DecomposeParts room.old rest left n right m to size next }
    ensures { Finished (decomposed edition_one arities.now room.old k left n right m to) to (length (paired edition_one arities.now k (seg room.old left n) (seg room.old right m))) size (kept_piece (decomposed edition_one arities.now room.old k left n right m to) rest left 0) (header_of (kept_header rest (length (paired edition_one arities.now k (seg room.old left n) (seg room.old right m))) 0 next)) (of_sized result) room.new }
{
    let written = pair_all(arities, room, k, left, n, right, m, to + HEADER);
    keep(room, rest, left, 0, to, written, size, next)
}
