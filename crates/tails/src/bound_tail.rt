// A child of a split that binds an unknown: its new equations, then the rest of its parent's row.
// Kept: places, sizes and the next unknown's number are passed apart. As records they cost the run a quarter of its speed (docs/DECISIONS.md).
ghost use Rattle.rows.specs.Made.{of_sized};
ghost use Rattle.tails.specs.Bound.{BoundMade, TailMade, BoundParts};

use binding::bind::finish;
use choices::equations::equations;
use choices::sides::Sides;
use room::layout::HEADER;
use rows::parts::{Made, Rest};
use rows::walk::is_in;

// The new equations with x replaced by the m words at `by`, then the finish of the binding of x to them.
pub fn bound(
    arities: &[u8],
    room: &mut [u16],
    from: usize,
    rest: Rest,
    sides: Sides,
    x: u16,
    by: usize,
    m: usize,
    to: usize,
    size: usize,
    next: usize,
    scratch: usize,
) -> Option<()>
    requires { BoundParts arities.now room.old from rest sides x by m to size next scratch }
    ensures { BoundMade arities.now room.old from rest sides x by m to size next scratch (of_sized result) room.new }
{
    let stride = size + HEADER;
    let us = scratch + stride;
    let picks = us + stride;
    let n = sides.n;
    let k = sides.m;
    let w = equations(
        room,
        from + HEADER,
        scratch,
        n,
        us,
        k,
        picks,
        x,
        by,
        m,
        to + HEADER,
        size,
    )?;
    finish(arities, room, rest, x, by, m, to, w, size, next)
}

// The same, or a dead end where x occurs in the words that it would be bound to.
pub fn bind_tail(
    arities: &[u8],
    room: &mut [u16],
    from: usize,
    rest: Rest,
    sides: Sides,
    x: u16,
    by: usize,
    m: usize,
    to: usize,
    size: usize,
    next: usize,
    scratch: usize,
) -> Made
    requires { BoundParts arities.now room.old from rest sides x by m to size next scratch }
    ensures { TailMade arities.now room.old from rest sides x by m to size next scratch result room.new }
{
    let end = by + m;
    if is_in(&room[by..end], x) {
        return Made::Dead;
    }
    Made::from(bound(
        arities, room, from, rest, sides, x, by, m, to, size, next, scratch,
    ))
}
