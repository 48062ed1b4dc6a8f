// The children of a split from the one on whose picks stand in scratch: dead ends are passed, one choice of picks after the other.
// Kept: places, sizes and the next unknown's number are passed apart. As records they cost the run a quarter of its speed (docs/DECISIONS.md).
ghost use Rattle.choices.specs.OpenParent.{Parent};
ghost use Rattle.pick_loop.specs.PicksInScratch.{Picks, PicksAt, Ended, EndedAt, Picked};

use choices::picks::advance;
use choices::sides::Sides;
use only_child::next::{Next, reached};
use room::layout::HEADER;
use rows::parts::Rest;
use search::steps::Tails;
use splits::split::split;

// The children after the one whose picks stand in scratch, which is a dead end; a t has `first` picks and a u `second`. It is counted too.
fn pick_after(
    arities: &[u8],
    room: &mut [u16],
    at: usize,
    rest: Rest,
    sides: Sides,
    tails: Tails,
    first: usize,
    second: usize,
    size: usize,
    next: usize,
    scratch: usize,
    most: usize,
) -> Next
    requires { EndedAt arities.now room.old at rest sides tails first second size next scratch most }
    ensures { (p : Parent) → Ended arities.now room.old at rest sides tails first second size next scratch most p → Picked arities.now room.old at rest sides tails first second size next scratch most p result room.new }
{
    let to = at + (size + HEADER);
    let picks = scratch + (size + HEADER) + (size + HEADER);
    if !advance(room, sides.n, first, sides.m, second, picks) {
        return Next::Spent(1);
    }
    for k in 1..most {
        let made = split(
            arities, room, at, rest, sides, tails, to, size, next, scratch,
        );
        if let Some(node) = reached(made) {
            return Next::Node(k, node);
        }
        if !advance(room, sides.n, first, sides.m, second, picks) {
            return Next::Spent(k + 1);
        }
    }
    Next::Due(most)
}

// The children from the one on whose picks stand in scratch. Most often that one is no dead end, and the loop is not reached.
pub fn pick_from(
    arities: &[u8],
    room: &mut [u16],
    at: usize,
    rest: Rest,
    sides: Sides,
    tails: Tails,
    first: usize,
    second: usize,
    size: usize,
    next: usize,
    scratch: usize,
    most: usize,
) -> Next
    requires { PicksAt arities.now room.old at rest sides tails first second size next scratch most }
    ensures { (p : Parent) → Picks arities.now room.old at rest sides tails first second size next scratch most p → Picked arities.now room.old at rest sides tails first second size next scratch most p result room.new }
{
    if most == 0 {
        return Next::Due(0);
    }
    let to = at + (size + HEADER);
    let made = split(
        arities, room, at, rest, sides, tails, to, size, next, scratch,
    );
    match reached(made) {
        None => pick_after(
            arities, room, at, rest, sides, tails, first, second, size, next, scratch, most,
        ),
        Some(node) => Next::Node(0, node),
    }
}
