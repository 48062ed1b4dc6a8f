// A row in which nothing is pending: its only child is the pile joined, and with no pile it is an answer.
// Kept: places, sizes and the next unknown's number are passed apart. As records they cost the run a quarter of its speed (docs/DECISIONS.md).
ghost use Rattle.search.specs.State.{State};
ghost use Rattle.only_child.specs.Next.{Kept};
ghost use Rattle.only_child.specs.Quiet.{Quiet};

use crate::next::{Next, told_of};
use plain_steps::join::join;
use room::layout::HEADER;
use rows::first::rest_of;
use rows::header::Header;

// The children of the row at `at` from `number` on. Its pile is laid out after the three rows of scratch in which a split may stand open.
pub fn join_pile(
    arities: &[u8],
    room: &mut [u16],
    at: usize,
    header: Header,
    number: usize,
    size: usize,
    scratch: usize,
    most: usize,
) -> Next
    requires { (st : State) × Quiet arities.now room.old at header number size scratch most st }
    ensures { (st : State) → Quiet arities.now room.old at header number size scratch most st → Kept room.old at number size scratch most st result room.new }
{
    if header.pile == 0 {
        return Next::Spent(0);
    }
    if 0 < number {
        return Next::Spent(0);
    }
    if most == 0 {
        return Next::Due(0);
    }
    let rest = rest_of(at, header, 0);
    let to = at + (size + HEADER);
    let aside = scratch + 3 * (size + HEADER);
    told_of(join(arities, room, rest, aside, to, size, header.next))
}
