// The children of a row from a number on, by the kind of the row: dead ends are passed, and the first child that is none is written to the next row.
// Crate `only_child` has the rows without a choice, and `openings` the splits.
// Kept: places, sizes and the next unknown's number are passed apart. As records they cost the run a quarter of its speed (docs/DECISIONS.md).
#![tactic(auto)]

ghost use Rattle.std.specs.Prelude.{◌≡◌, true, ℕ, ◌+◌, Some};
ghost use Rattle.search.specs.State.{State};
ghost use Rattle.only_child.specs.Next.{Ready};
ghost use Rattle.pick_loop.specs.Shown.{Looks, Opened, OpenedAt, Opens};
ghost use Rattle.children.specs.Looking.{Looking};

use only_child::next::{Looked, Next};
use only_child::no_choice::step_on;
use only_child::quiet::join_pile;
use openings::open_split::{pick, pick_on};
use plain_steps::plain::{Forced, Way, way_of};
use room::layout::HEADER;
use rows::first::{first_of, read_header, rest_of};
use terms::bounds::MEMBER;

// The same, by the kind of the row: nothing is pending, or its first equation is a split, or it leaves no choice.
fn find_child(
    arities: &[u8],
    room: &mut [u16],
    at: usize,
    number: usize,
    size: usize,
    scratch: usize,
    most: usize,
) -> Looked
    requires { (st : State) × Ready arities.now room.old at number size scratch most st }
    ensures { (st : State) → Ready arities.now room.old at number size scratch most st → Looks room.old at number size scratch most st result room.new }
{
    let after = at + 5;
    let header = read_header(&room[at..after]);
    if header.pending == 0 {
        let next = join_pile(arities, room, at, header, number, size, scratch, most);
        return Looked { next, opens: false };
    }
    let body = at + HEADER;
    let last = body + header.pending;
    let first = first_of(arities, &room[body..last]);
    let rest = rest_of(at, header, first.end);
    let step = first.step;
    match way_of(step) {
        Way::Split(tails) => {
            let next = pick(
                arities,
                room,
                at,
                rest,
                first.right,
                first.end,
                tails,
                number,
                size,
                header.next,
                scratch,
                most,
            );
            Looked { next, opens: true }
        }
        Way::Plain(step) => {
            let forced = Forced {
                step,
                right: first.right,
                end: first.end,
            };
            let next = step_on(
                arities,
                room,
                at,
                rest,
                forced,
                number,
                size,
                header.next,
                scratch,
                most,
            );
            Looked { next, opens: false }
        }
    }
}

// The children of the row at `at` from `number` on: at most so many dead ends are passed. Only a split has a second child, and its row's body begins with a
// member mark: most rows whose first child was made are left at a glance.
pub fn next_child(
    arities: &[u8],
    room: &mut [u16],
    at: usize,
    number: usize,
    size: usize,
    scratch: usize,
    most: usize,
) -> Looked
    requires { (st : State) × Ready arities.now room.old at number size scratch most st }
    ensures { (st : State) → Ready arities.now room.old at number size scratch most st → Looks room.old at number size scratch most st result room.new }
{
    if 0 < number {
        if room[at + HEADER] != MEMBER {
            return Looked {
                next: Next::Spent(0),
                opens: false,
            };
        }
    }
    find_child(arities, room, at, number, size, scratch, most)
}

// The children of the row at `at` after the one that was opened last, where the row's split still stands open in scratch.
pub fn next_pick(
    arities: &[u8],
    room: &mut [u16],
    at: usize,
    size: usize,
    scratch: usize,
    most: usize,
) -> Next
    requires { OpenedAt arities.now room.old at size scratch most }
    ensures { (st : State) (last : ℕ) → Opened arities.now room.old at size scratch most st last → Opens room.old at (last + 1) size scratch most st result room.new }
{
    pick_on(arities, room, at, size, scratch, most)
}

// What is told of the children of the row at `at`, of this level, from `number` on: where its split stands open, only the picks go on.
pub fn look(
    arities: &[u8],
    room: &mut [u16],
    at: usize,
    level: usize,
    number: usize,
    size: usize,
    scratch: usize,
    most: usize,
    shown: Option<usize>,
) -> Looked
    requires { (st : State) × Looking arities.now room.old at level number size scratch most shown st }
    ensures looks { (st : State) → Looking arities.now room.old at level number size scratch most shown st → Looks room.old at number size scratch most st result room.new }
    ensures opens_value { shown ≡ Some level → result.opens ≡ true }
{
    if shown == Some(level) {
        return Looked {
            next: next_pick(arities, room, at, size, scratch, most),
            opens: true,
        };
    }
    next_child(arities, room, at, number, size, scratch, most)
}
