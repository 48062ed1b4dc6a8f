// A step that binds nothing: the rest of the parent's row as it is, with one entry more at the end of its pile, or none.
// Kept: places, sizes and the next unknown's number are passed apart. As records they cost the run a quarter of its speed (docs/DECISIONS.md).
ghost use Rattle.terms.specs.Bounds.{FIRST_UNKNOWN};
ghost use Rattle.rows.specs.Wrote.{Wrote};
ghost use Rattle.rows.specs.Bind.{BindParts, FinishParts};
ghost use Rattle.rows.specs.Header.{header_of};
ghost use Rattle.rows.specs.Made.{of_sized};
ghost use Rattle.rows.specs.Finished.{Finished};
ghost use Rattle.binding.specs.Keep.{kept_piece, kept_header};

use room::layout::HEADER;
use rows::header::{Header, seal};
use rows::parts::Rest;

// The pending equations and the pile, the m words at `by`, then the bindings.
fn keep_rest(
    room: &mut [u16],
    rest: Rest,
    by: usize,
    m: usize,
    to: usize,
    capacity: usize,
) -> Option<usize>
    requires { BindParts room.old rest by m to capacity }
    ensures { Wrote room.old to capacity (kept_piece room.old rest by m) result room.new }
{
    let at = rest.at;
    let n = rest.pending + rest.pile;
    let bound = rest.bound;
    if capacity < n + m + bound {
        return None;
    }
    room::copy(room, at, n, to);
    room::copy(room, by, m, to + n);
    room::copy(room, at + n, bound, to + n + m);
    Some(n + m + bound)
}

// A child's row, of whose body the new equations are written, so many words: the rest of the parent's row, with the m words at `by` at the end of its pile.
pub fn keep(
    room: &mut [u16],
    rest: Rest,
    by: usize,
    m: usize,
    to: usize,
    written: usize,
    size: usize,
    next: usize,
) -> Option<()>
    requires { FinishParts room.old rest by m to written size FIRST_UNKNOWN next }
    ensures { Finished room.old to written size (kept_piece room.old rest by m) (header_of (kept_header rest written m next)) (of_sized result) room.new }
{
    let k = keep_rest(room, rest, by, m, to + HEADER + written, size - written)?;
    let pending = written + rest.pending;
    let pile = rest.pile + m;
    let body = written + k;
    let bindings = rest.bindings;
    seal(
        room,
        to,
        Header {
            pending,
            pile,
            body,
            bindings,
            next,
        },
    );
    Some(())
}
