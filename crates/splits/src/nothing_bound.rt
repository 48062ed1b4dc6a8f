// A child of a split that binds nothing: neither tail is an unknown, or both are the same.
//
// Kept: `neither` and `same` both begin with one call of `equations`, and then write different words; what they share is that call alone.
// Kept: places, sizes and the next unknown's number are passed apart. As records they cost the run a quarter of its speed (docs/DECISIONS.md).
ghost use Rattle.search.specs.declared.steps.Tails.TheVariants.{Neither, Same};
ghost use Rattle.rows.specs.Wrote.{Wrote};
ghost use Rattle.rows.specs.Made.{of_sized};
ghost use Rattle.tails.specs.Due.{ChildParts, ChildMade};
ghost use Rattle.splits.specs.KeptTails.{tails_piece, TailsParts, EntryParts, EntryLaid};

use binding::keep::keep;
use choices::equations::equations;
use choices::sides::Sides;
use room::layout::HEADER;
use rows::parts::Rest;
use tails::joined_members::tail_members;

// The equation of the two tails.
fn tails_equation(
    room: &mut [u16],
    from: usize,
    sides: Sides,
    to: usize,
    capacity: usize,
) -> Option<usize>
    requires { TailsParts room.old from sides to capacity }
    ensures { Wrote room.old to capacity (tails_piece room.old from sides) result room.new }
{
    let body = from + HEADER;
    let s = sides.right - sides.s;
    let r = sides.end - sides.r;
    if capacity < s + r {
        return None;
    }
    room::copy(room, body + sides.s, s, to);
    room::copy(room, body + sides.r, r, to + s);
    Some(s + r)
}

// Neither tail is an unknown: s = r is the last new equation. Its first word stands for itself, so that the equations are copied as they are.
pub fn neither(
    arities: &[u8],
    room: &mut [u16],
    from: usize,
    rest: Rest,
    sides: Sides,
    to: usize,
    size: usize,
    next: usize,
    scratch: usize,
) -> Option<()>
    requires { ChildParts arities.now room.old from rest sides Neither to size next scratch }
    ensures { ChildMade arities.now room.old from rest sides Neither to size next scratch (of_sized result) room.new }
{
    let stride = size + HEADER;
    let us = scratch + stride;
    let picks = us + stride;
    let by = from + HEADER + sides.s;
    let x = room[by];
    let n = sides.n;
    let k = sides.m;
    let w = equations(
        room,
        from + HEADER,
        scratch,
        n,
        us,
        k,
        picks,
        x,
        by,
        1,
        to + HEADER,
        size,
    )?;
    let v = tails_equation(room, from, sides, to + HEADER + w, size - w)?;
    keep(room, rest, by, 0, to, w + v, size, next)
}

// Lays out the entry X = {T,U|X}, where X is both tails; answers how many words it has, none where no member joins.
fn lay_entry(room: &mut [u16], from: usize, sides: Sides, size: usize, scratch: usize) -> usize
    requires { EntryParts room.old from sides size scratch }
    ensures { EntryLaid room.old from sides size scratch result room.new }
{
    let stride = size + HEADER;
    let us = scratch + stride;
    let picks = us + stride;
    let value = picks + stride;
    let body = from + HEADER;
    let n = sides.n;
    let m = sides.m;
    let x = room[body + sides.s];
    room[value] = x;
    let k = tail_members(room, body, scratch, picks, n, m, value + 1);
    let l = tail_members(room, body, us, picks + n, m, n, value + 1 + k);
    room[value + 1 + k + l] = x;
    if k + l == 0 {
        return 0;
    }
    k + l + 2
}

// Both tails are the same unknown.
pub fn same(
    arities: &[u8],
    room: &mut [u16],
    from: usize,
    rest: Rest,
    sides: Sides,
    to: usize,
    size: usize,
    next: usize,
    scratch: usize,
) -> Option<()>
    requires { ChildParts arities.now room.old from rest sides Same to size next scratch }
    ensures { ChildMade arities.now room.old from rest sides Same to size next scratch (of_sized result) room.new }
{
    let stride = size + HEADER;
    let us = scratch + stride;
    let picks = us + stride;
    let value = picks + stride;
    let by = from + HEADER + sides.s;
    let l = lay_entry(room, from, sides, size, scratch);
    let x = room[by];
    let n = sides.n;
    let k = sides.m;
    let w = equations(
        room,
        from + HEADER,
        scratch,
        n,
        us,
        k,
        picks,
        x,
        by,
        1,
        to + HEADER,
        size,
    )?;
    keep(room, rest, value, l, to, w, size, next)
}
