// A child of a split, by the kind of its two tails.
// Kept: places, sizes and the next unknown's number are passed apart. As records they cost the run a quarter of its speed (docs/DECISIONS.md).
ghost use Rattle.tails.specs.Due.{ChildParts, ChildMade};

use crate::different::different;
use crate::nothing_bound::{neither, same};
use choices::sides::Sides;
use rows::parts::{Made, Rest};
use search::steps::Tails;
use tails::one_tail::{left, right};

// Makes the child whose picks stand in scratch, in the row at `to`.
pub fn split(
    arities: &[u8],
    room: &mut [u16],
    from: usize,
    rest: Rest,
    sides: Sides,
    tails: Tails,
    to: usize,
    size: usize,
    next: usize,
    scratch: usize,
) -> Made
    requires { ChildParts arities.now room.old from rest sides tails to size next scratch }
    ensures { ChildMade arities.now room.old from rest sides tails to size next scratch result room.new }
{
    match tails {
        Tails::Neither => Made::from(neither(
            arities, room, from, rest, sides, to, size, next, scratch,
        )),
        Tails::Left => left(arities, room, from, rest, sides, to, size, next, scratch),
        Tails::Right => right(arities, room, from, rest, sides, to, size, next, scratch),
        Tails::Different => different(arities, room, from, rest, sides, to, size, next, scratch),
        Tails::Same => Made::from(same(arities, room, from, rest, sides, to, size, next, scratch)),
    }
}
