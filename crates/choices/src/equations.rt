// The new equations of a child's picks, with an unknown replaced. A function answers how many words it writes, and None where they do not fit.
// Kept: places, sizes and the next unknown's number are passed apart. As records they cost the run a quarter of its speed (docs/DECISIONS.md).
ghost use Rattle.std.specs.Prelude.{◌++◌, ◌+◌, cond};
ghost use Rattle.room.specs.Room.{seg};
ghost use Rattle.room.specs.Replaced.{replaced};
ghost use Rattle.rows.specs.Wrote.{Wrote};
ghost use Rattle.choices.specs.Gathered.{member_piece, meeting_piece, equations_piece, SideParts, MeetParts};

// The member whose place is noted at `at`, with the m words at `by` for each word x.
fn side(
    room: &mut [u16],
    body: usize,
    at: usize,
    x: u16,
    by: usize,
    m: usize,
    to: usize,
    capacity: usize,
) -> Option<usize>
    requires { SideParts room.old body at by m to capacity }
    ensures { Wrote room.old to capacity (replaced x (seg room.old by m) (member_piece room.old body at)) result room.new }
{
    let p = usize::from(room[at]) + 1;
    let q = usize::from(room[at + 1]);
    replace::replace(room, body + p, q - p, x, by, m, to, capacity)
}

// Two members, one after the other.
fn equation(
    room: &mut [u16],
    body: usize,
    t: usize,
    u: usize,
    x: u16,
    by: usize,
    m: usize,
    to: usize,
    capacity: usize,
) -> Option<usize>
    requires { SideParts room.old body t by m to capacity × SideParts room.old body u by m to capacity }
    ensures { Wrote room.old to capacity (replaced x (seg room.old by m) (member_piece room.old body t ++ member_piece room.old body u)) result room.new }
{
    let k = side(room, body, t, x, by, m, to, capacity)?;
    let j = side(room, body, u, x, by, m, to + k, capacity - k)?;
    Some(k + j)
}

// The equation of a member and the other that it picked; turned, the other is on the left.
fn pair(
    room: &mut [u16],
    body: usize,
    turned: bool,
    own: usize,
    other: usize,
    x: u16,
    by: usize,
    m: usize,
    to: usize,
    capacity: usize,
) -> Option<usize>
    requires { SideParts room.old body own by m to capacity × SideParts room.old body other by m to capacity }
    ensures { Wrote room.old to capacity (replaced x (seg room.old by m) (cond turned (member_piece room.old body other ++ member_piece room.old body own) (member_piece room.old body own ++ member_piece room.old body other))) result room.new }
{
    if turned {
        return equation(room, body, other, own, x, by, m, to, capacity);
    }
    equation(room, body, own, other, x, by, m, to, capacity)
}

// The equations of one side's n picks: the members noted at `owns` with those of the `count` noted at `others` that they picked.
fn equations_of(
    room: &mut [u16],
    body: usize,
    turned: bool,
    owns: usize,
    n: usize,
    others: usize,
    count: usize,
    picks: usize,
    x: u16,
    by: usize,
    m: usize,
    to: usize,
    capacity: usize,
) -> Option<usize>
    requires { MeetParts room.old body owns n others count picks by m to capacity }
    ensures { Wrote room.old to capacity (replaced x (seg room.old by m) (meeting_piece room.old body owns picks turned n others count)) result room.new }
{
    let mut written = 0;
    for i in 0..n {
        let pick = usize::from(room[picks + i]);
        if pick < count {
            let k = pair(
                room,
                body,
                turned,
                owns + i,
                others + pick,
                x,
                by,
                m,
                to + written,
                capacity - written,
            )?;
            written += k;
        }
    }
    Some(written)
}

// All new equations: those of the n t's picks, then those of the k u's.
pub fn equations(
    room: &mut [u16],
    body: usize,
    ts: usize,
    n: usize,
    us: usize,
    k: usize,
    picks: usize,
    x: u16,
    by: usize,
    m: usize,
    to: usize,
    capacity: usize,
) -> Option<usize>
    requires { MeetParts room.old body ts n us k picks by m to capacity × MeetParts room.old body us k ts n (picks + n) by m to capacity }
    ensures { Wrote room.old to capacity (replaced x (seg room.old by m) (equations_piece room.old body ts n us k picks)) result room.new }
{
    let w = equations_of(
        room, body, false, ts, n, us, k, picks, x, by, m, to, capacity,
    )?;
    let v = equations_of(
        room,
        body,
        true,
        us,
        k,
        ts,
        n,
        picks + n,
        x,
        by,
        m,
        to + w,
        capacity - w,
    )?;
    Some(w + v)
}
