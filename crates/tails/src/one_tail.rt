// A child of a split of which one tail is an unknown: it is bound to the other tail with the members that joined it.
// Kept: places, sizes and the next unknown's number are passed apart. As records they cost the run a quarter of its speed (docs/DECISIONS.md).
ghost use Rattle.std.specs.Prelude.{◌≡◌, ◌+◌, ◌≤◌, length, get_or};
ghost use Rattle.room.specs.Room.{put};
ghost use Rattle.tails.specs.Value.{value_piece, ValueParts};
ghost use Rattle.search.specs.declared.steps.Tails.TheVariants.{Left, Right};
ghost use Rattle.tails.specs.Due.{ChildParts, ChildMade};

use crate::bound_tail::bind_tail;
use crate::joined_members::tail_members;
use choices::sides::Sides;
use room::layout::HEADER;
use rows::parts::{Made, Rest};

// Lays out the members whose pick is none of the others, each with its mark, and then the l words of a tail; answers how many words they are.
fn lay_value(
    room: &mut [u16],
    from: usize,
    places: usize,
    picks: usize,
    n: usize,
    others: usize,
    tail: usize,
    l: usize,
    to: usize,
) -> usize
    requires { ValueParts room.old from places picks n tail l to }
    ensures value { (result ≡ length (value_piece room.old from places picks n others tail l)) × (result ≤ get_or room.old (places + n) 0 + l) }
    ensures room_after { room.new ≡ put room.old to (value_piece room.old from places picks n others tail l) }
{
    let body = from + HEADER;
    let k = tail_members(room, body, places, picks, n, others, to);
    room::copy(room, body + tail, l, to + k);
    k + l
}

// Only s is an unknown: it is bound to {U|r}.
pub fn left(
    arities: &[u8],
    room: &mut [u16],
    from: usize,
    rest: Rest,
    sides: Sides,
    to: usize,
    size: usize,
    next: usize,
    scratch: usize,
) -> Made
    requires { ChildParts arities.now room.old from rest sides Left to size next scratch }
    ensures { ChildMade arities.now room.old from rest sides Left to size next scratch result room.new }
{
    let stride = size + HEADER;
    let us = scratch + stride;
    let picks = us + stride;
    let value = picks + stride;
    let x = room[from + HEADER + sides.s];
    let k = lay_value(
        room,
        from,
        us,
        picks + sides.n,
        sides.m,
        sides.n,
        sides.r,
        sides.end - sides.r,
        value,
    );
    bind_tail(
        arities, room, from, rest, sides, x, value, k, to, size, next, scratch,
    )
}

// Only r is an unknown: it is bound to {T|s}.
pub fn right(
    arities: &[u8],
    room: &mut [u16],
    from: usize,
    rest: Rest,
    sides: Sides,
    to: usize,
    size: usize,
    next: usize,
    scratch: usize,
) -> Made
    requires { ChildParts arities.now room.old from rest sides Right to size next scratch }
    ensures { ChildMade arities.now room.old from rest sides Right to size next scratch result room.new }
{
    let stride = size + HEADER;
    let us = scratch + stride;
    let picks = us + stride;
    let value = picks + stride;
    let x = room[from + HEADER + sides.r];
    let k = lay_value(
        room,
        from,
        scratch,
        picks,
        sides.n,
        sides.m,
        sides.s,
        sides.right - sides.s,
        value,
    );
    bind_tail(
        arities, room, from, rest, sides, x, value, k, to, size, next, scratch,
    )
}
