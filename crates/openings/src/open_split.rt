// A split that is opened, and one that stands open and is gone on with.
// Kept: places, sizes and the next unknown's number are passed apart. As records they cost the run a quarter of its speed (docs/DECISIONS.md).
ghost use Rattle.std.specs.Prelude.{List, ℕ, ◌+◌};
ghost use Rattle.terms.specs.Formed.{Equation};
ghost use Rattle.search.specs.State.{State};
ghost use Rattle.pick_loop.specs.Shown.{Opened, OpenedAt, Opens};
ghost use Rattle.openings.specs.SplitRow.{Splitting, SplittingAt};

use choices::picks::{advance, digits};
use choices::sides::open_sides;
use noted_sides::shown::{show_sides, shown_sides};
use only_child::next::Next;
use pick_loop::pass::pick_from;
use pick_loop::radix::{picks_of_t, picks_of_u};
use room::layout::HEADER;
use rows::first::{read_header, rest_of};
use rows::parts::Rest;
use rows::step::tails_by_words;
use search::steps::Tails;

// The children of the row at `at`, whose first equation is a split with these tails, from `number` on. The equation's right side begins at the place
// `right` of the row's body and ends at `end`; `rest` is what is left of the row after it.
pub fn pick(
    arities: &[u8],
    room: &mut [u16],
    at: usize,
    rest: Rest,
    right: usize,
    end: usize,
    tails: Tails,
    number: usize,
    size: usize,
    next: usize,
    scratch: usize,
    most: usize,
) -> Next
    requires { SplittingAt arities.now room.old at rest right end tails number size next scratch most }
    ensures { (st : State) (e : Equation) (es : List Equation) → Splitting arities.now room.old at rest right end tails number size next scratch most st e es → Opens room.old at number size scratch most st result room.new }
{
    let sides = open_sides(arities, room, at, right, end, size, scratch);
    let picks = scratch + (size + HEADER) + (size + HEADER);
    show_sides(room, sides, picks + size);
    let first = picks_of_t(tails, sides.m);
    let second = picks_of_u(tails, sides.n);
    let left = digits(room, number, sides.n, first, sides.m, second, picks);
    if left != 0 {
        return Next::Spent(0);
    }
    pick_from(
        arities, room, at, rest, sides, tails, first, second, size, next, scratch, most,
    )
}

// The children of the row at `at` after the one whose picks stand in scratch, where the row's split still stands open.
pub fn pick_on(
    arities: &[u8],
    room: &mut [u16],
    at: usize,
    size: usize,
    scratch: usize,
    most: usize,
) -> Next
    requires { OpenedAt arities.now room.old at size scratch most }
    ensures { (st : State) (last : ℕ) → Opened arities.now room.old at size scratch most st last → Opens room.old at (last + 1) size scratch most st result room.new }
{
    let shown = shown_sides(room, size, scratch);
    let body = at + HEADER;
    let tails = tails_by_words(room[body + shown.s], room[body + shown.r]);
    let first = picks_of_t(tails, shown.m);
    let second = picks_of_u(tails, shown.n);
    let picks = scratch + (size + HEADER) + (size + HEADER);
    if !advance(room, shown.n, first, shown.m, second, picks) {
        return Next::Spent(0);
    }
    let after = at + 5;
    let header = read_header(&room[at..after]);
    let rest = rest_of(at, header, shown.end);
    pick_from(
        arities,
        room,
        at,
        rest,
        shown,
        tails,
        first,
        second,
        size,
        header.next,
        scratch,
        most,
    )
}
