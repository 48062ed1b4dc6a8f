// The pile's entries: those of an unknown, and the others, with the unknown replaced.
// Kept: places, sizes and the next unknown's number are passed apart. As records they cost the run a quarter of its speed (docs/DECISIONS.md).
ghost use Rattle.std.specs.Prelude.{◌≡◌, ◌<◌, ◌^◌, length};
ghost use Rattle.room.specs.Room.{seg};
ghost use Rattle.room.specs.Parts.{ReplaceParts};
ghost use Rattle.room.specs.Replaced.{replaced};
ghost use Rattle.terms.specs.Bounds.{edition_one};
ghost use Rattle.rows.specs.declared.parts.Part.TheVariants.{Entries, Others};
ghost use Rattle.rows.specs.Pile.{wants, selection};
ghost use Rattle.rows.specs.Wrote.{Wrote};

use rows::parts::Part;
use rows::walk::{end_of_term, is_in};

fn wanted(part: Part, name: u16, x: u16) -> bool
    ensures { result ≡ wants part name x }
{
    match part {
        Part::Entries => name == x,
        Part::Others => name != x,
    }
}

// Writes a part of the entries in the n words at `from` to the place `to`, with the m words at `by` for each word x, in at most `capacity` words: one
// entry after the other.
// Kept: a turn of the loop steps over an entry, as long as its term is, so no `for` over places counts it.
fn replace_entries(
    arities: &[u8],
    room: &mut [u16],
    part: Part,
    from: usize,
    n: usize,
    x: u16,
    by: usize,
    m: usize,
    to: usize,
    capacity: usize,
) -> Option<usize>
    requires { ReplaceParts room.old from n by m to capacity × length room.old < 2 ^ 32 }
    ensures { Wrote room.old to capacity (replaced x (seg room.old by m) (selection edition_one arities.now part x (seg room.old from n))) result room.new }
{
    let end = from + n;
    let mut read = 0;
    let mut written = 0;
    while read < n {
        let at = from + read;
        let after = at + 1;
        let size = end_of_term(arities, &room[after..end]) + 1;
        if wanted(part, room[at], x) {
            let k = replace::replace(room, at, size, x, by, m, to + written, capacity - written)?;
            written += k;
        }
        read += size;
    }
    Some(written)
}

// `replace_entries`, which need not walk where x is none of the words: then no entry is x's, and the others are written as they are.
fn replace_part(
    arities: &[u8],
    room: &mut [u16],
    part: Part,
    from: usize,
    n: usize,
    x: u16,
    by: usize,
    m: usize,
    to: usize,
    capacity: usize,
) -> Option<usize>
    requires { ReplaceParts room.old from n by m to capacity × length room.old < 2 ^ 32 }
    ensures { Wrote room.old to capacity (replaced x (seg room.old by m) (selection edition_one arities.now part x (seg room.old from n))) result room.new }
{
    let end = from + n;
    if !is_in(&room[from..end], x) {
        match part {
            Part::Entries => {
                return Some(0);
            }
            Part::Others => {
                if capacity < n {
                    return None;
                }
                room::copy(room, from, n, to);
                return Some(n);
            }
        }
    }
    replace_entries(arities, room, part, from, n, x, by, m, to, capacity)
}

// Writes the entries of x, which its binding releases. Many piles are empty, and need no look.
// Kept: two functions for the two parts, each over `replace_part`. Callers take in this test whole; one function for both became a call at each node, of a seventh more instructions in all.
pub fn replace_released(
    arities: &[u8],
    room: &mut [u16],
    from: usize,
    n: usize,
    x: u16,
    by: usize,
    m: usize,
    to: usize,
    capacity: usize,
) -> Option<usize>
    requires { ReplaceParts room.old from n by m to capacity × length room.old < 2 ^ 32 }
    ensures { Wrote room.old to capacity (replaced x (seg room.old by m) (selection edition_one arities.now Entries x (seg room.old from n))) result room.new }
{
    if n == 0 {
        return Some(0);
    }
    replace_part(
        arities,
        room,
        Part::Entries,
        from,
        n,
        x,
        by,
        m,
        to,
        capacity,
    )
}

// Writes the other entries, which stay in the pile.
// Kept: as `replace_released`.
pub fn replace_others(
    arities: &[u8],
    room: &mut [u16],
    from: usize,
    n: usize,
    x: u16,
    by: usize,
    m: usize,
    to: usize,
    capacity: usize,
) -> Option<usize>
    requires { ReplaceParts room.old from n by m to capacity × length room.old < 2 ^ 32 }
    ensures { Wrote room.old to capacity (replaced x (seg room.old by m) (selection edition_one arities.now Others x (seg room.old from n))) result room.new }
{
    if n == 0 {
        return Some(0);
    }
    replace_part(arities, room, Part::Others, from, n, x, by, m, to, capacity)
}
