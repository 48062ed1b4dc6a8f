// A binding of x to a term, whose words stand somewhere in the room: what a child's row has after its new equations. A function answers None where its
// words do not fit.
// Kept: places, sizes and the next unknown's number are passed apart. As records they cost the run a quarter of its speed (docs/DECISIONS.md).
ghost use Rattle.std.specs.Prelude.{◌+◌, ◌-◌, ◌≤◌, ◌++◌, length};
ghost use Rattle.terms.specs.Bounds.{edition_one, FIRST_UNKNOWN};
ghost use Rattle.rows.specs.Wrote.{Wrote};
ghost use Rattle.rows.specs.Bind.{BindParts, FinishParts, bound_pending, bound_pile, bound_bindings, bound_body};
ghost use Rattle.rows.specs.Header.{header_of};
ghost use Rattle.rows.specs.Made.{of_sized};
ghost use Rattle.rows.specs.Finished.{Finished, bound_header};

use crate::pile::{replace_others, replace_released};
use room::layout::HEADER;
use rows::header::{Header, seal};
use rows::parts::Rest;
use terms::kind::unknown_number;

// The pending equations, then the released entries, which are those of x.
fn bind_pending(
    arities: &[u8],
    room: &mut [u16],
    rest: Rest,
    x: u16,
    by: usize,
    m: usize,
    to: usize,
    capacity: usize,
) -> Option<usize>
    requires { BindParts room.old rest by m to capacity }
    ensures { Wrote room.old to capacity (bound_pending edition_one arities.now room.old rest x by m) result room.new }
{
    let at = rest.at;
    let n = rest.pending;
    let k = replace::replace_all(room, at, n, x, by, m, to, capacity)?;
    let l = replace_released(
        arities,
        room,
        at + n,
        rest.pile,
        x,
        by,
        m,
        to + k,
        capacity - k,
    )?;
    Some(k + l)
}

// The bindings as they are, then x's number and its value.
fn bind_last(
    room: &mut [u16],
    rest: Rest,
    x: u16,
    by: usize,
    m: usize,
    to: usize,
    capacity: usize,
) -> Option<usize>
    requires { BindParts room.old rest by m to capacity × FIRST_UNKNOWN ≤ x }
    ensures { Wrote room.old to capacity (bound_bindings room.old rest x by m) result room.new }
{
    let at = rest.at + rest.pending + rest.pile;
    let n = rest.bound;
    if capacity < n + 1 + m {
        return None;
    }
    room::copy(room, at, n, to);
    room[to + n] = unknown_number(x);
    room::copy(room, by, m, to + n + 1);
    Some(n + 1 + m)
}

// The last part of a child's row, of whose body the pending equations and the pile are written.
fn finish_bindings(
    room: &mut [u16],
    rest: Rest,
    x: u16,
    by: usize,
    m: usize,
    to: usize,
    pending: usize,
    pile: usize,
    size: usize,
    next: usize,
) -> Option<()>
    requires { FinishParts room.old rest by m to (pending + pile) size x next }
    ensures { Finished room.old to (pending + pile) size (bound_bindings room.old rest x by m) (header_of (bound_header rest pending pile m next)) (of_sized result) room.new }
{
    let start = pending + pile;
    let k = bind_last(room, rest, x, by, m, to + HEADER + start, size - start)?;
    let bindings = rest.bindings + 1;
    let body = start + k;
    seal(
        room,
        to,
        Header {
            pending,
            pile,
            body,
            bindings,
            next,
        },
    );
    Some(())
}

// The part of a child's row after the pending equations. They are written, so many words.
pub fn finish_pile(
    arities: &[u8],
    room: &mut [u16],
    rest: Rest,
    x: u16,
    by: usize,
    m: usize,
    to: usize,
    pending: usize,
    size: usize,
    next: usize,
) -> Option<()>
    requires { FinishParts room.old rest by m to pending size x next }
    ensures { Finished room.old to pending size (bound_pile edition_one arities.now room.old rest x by m ++ bound_bindings room.old rest x by m) (header_of (bound_header rest pending (length (bound_pile edition_one arities.now room.old rest x by m)) m next)) (of_sized result) room.new }
{
    let at = rest.at + rest.pending;
    let k = replace_others(
        arities,
        room,
        at,
        rest.pile,
        x,
        by,
        m,
        to + HEADER + pending,
        size - pending,
    )?;
    finish_bindings(room, rest, x, by, m, to, pending, k, size, next)
}

// A child's row, of whose body the new equations are written, so many words: the rest of the parent's row with x bound to the m words at `by`.
#[inline(always)]
pub fn finish(
    arities: &[u8],
    room: &mut [u16],
    rest: Rest,
    x: u16,
    by: usize,
    m: usize,
    to: usize,
    written: usize,
    size: usize,
    next: usize,
) -> Option<()>
    requires { FinishParts room.old rest by m to written size x next }
    ensures { Finished room.old to written size (bound_body edition_one arities.now room.old rest x by m) (header_of (bound_header rest (written + length (bound_pending edition_one arities.now room.old rest x by m)) (length (bound_pile edition_one arities.now room.old rest x by m)) m next)) (of_sized result) room.new }
{
    let k = bind_pending(
        arities,
        room,
        rest,
        x,
        by,
        m,
        to + HEADER + written,
        size - written,
    )?;
    finish_pile(arities, room, rest, x, by, m, to, written + k, size, next)
}
