// A row whose first equation leaves no choice: its only child is the step that the equation calls for.
// Kept: places, sizes and the next unknown's number are passed apart. As records they cost the run a quarter of its speed (docs/DECISIONS.md).
ghost use Rattle.std.specs.Prelude.{List};
ghost use Rattle.terms.specs.Formed.{Equation};
ghost use Rattle.search.specs.State.{State};
ghost use Rattle.only_child.specs.Next.{Kept};
ghost use Rattle.only_child.specs.NoChoice.{Single, SingleAt};

use crate::next::{Next, told_of};
use plain_steps::child::take_step;
use plain_steps::plain::Forced;
use room::layout::HEADER;
use rows::first::subject_of;
use rows::parts::Rest;

// The children of the row at `at` from `number` on; `rest` is what is left of the row after its first equation. What is laid out lies after the three
// rows of scratch in which a split may stand open.
pub fn step_on(
    arities: &[u8],
    room: &mut [u16],
    at: usize,
    rest: Rest,
    first: Forced,
    number: usize,
    size: usize,
    next: usize,
    scratch: usize,
    most: usize,
) -> Next
    requires { SingleAt arities.now room.old at rest first number size next scratch most }
    ensures { (st : State) (e : Equation) (es : List Equation) → Single arities.now room.old at rest first number size next scratch most st e es → Kept room.old at number size scratch most st result room.new }
{
    if 0 < number {
        return Next::Spent(0);
    }
    if most == 0 {
        return Next::Due(0);
    }
    let body = at + HEADER;
    let last = body + first.end;
    let subject = subject_of(&room[body..last], body, first.right, first.end);
    let to = at + (size + HEADER);
    let aside = scratch + 3 * (size + HEADER);
    let step = first.step;
    told_of(take_step(
        arities,
        room,
        at,
        to,
        aside,
        size,
        first.right,
        first.end,
        next,
        rest,
        subject,
        step,
    ))
}
