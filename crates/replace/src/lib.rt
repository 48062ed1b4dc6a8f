// Words of a room copied with each word x replaced by other words of it, as far as a capacity goes.
//
// A client's contracts cite `specs/Fitting.antt`, and `Replaced` and `Parts` of `room`.
// Kept: places, sizes and the next unknown's number are passed apart. As records they cost the run a quarter of its speed (docs/DECISIONS.md).
#![tactic(auto)]

ghost use Rattle.std.specs.Prelude.{◌≡◌};
ghost use Rattle.room.specs.Room.{seg, put};
ghost use Rattle.room.specs.Parts.{ReplaceParts};
ghost use Rattle.room.specs.Replaced.{replaced};
ghost use Rattle.replace.specs.Fitting.{fitting, told};

use eights::copy_before;
use room::copy;

// `replace` of one word.
fn replace_word(
    room: &mut [u16],
    from: usize,
    x: u16,
    by: usize,
    m: usize,
    to: usize,
    capacity: usize,
) -> Option<usize>
    requires { ReplaceParts room.old from 1 by m to capacity }
    ensures value { result ≡ told capacity (replaced x (seg room.old by m) (seg room.old from 1)) }
    ensures room_after { room.new ≡ put room.old to (fitting x (seg room.old by m) capacity (seg room.old from 1)) }
{
    let w = room[from];
    if w == x {
        if capacity < m {
            return None;
        }
        copy(room, by, m, to);
        return Some(m);
    }
    if capacity < 1 {
        return None;
    }
    room[to] = w;
    Some(1)
}

// `replace` of any number of words, for parts that are seldom one.
//
// A run of words that are not x is copied at one go, no longer than the capacity allows, so that a word costs one
// comparison with x, and eight words one with the run's bound. It ends at the last word, at an x, or where the capacity does.
// Kept: a turn of the loop takes a run and the x that ends it, so a `for` over the words, one word each turn, has another step.
pub fn replace_all(
    room: &mut [u16],
    from: usize,
    n: usize,
    x: u16,
    by: usize,
    m: usize,
    to: usize,
    capacity: usize,
) -> Option<usize>
    requires { ReplaceParts room.old from n by m to capacity }
    ensures value { result ≡ told capacity (replaced x (seg room.old by m) (seg room.old from n)) }
    ensures room_after { room.new ≡ put room.old to (fitting x (seg room.old by m) capacity (seg room.old from n)) }
{
    let mut read = 0;
    let mut written = 0;
    loop {
        let run = copy_before(
            room,
            from + read,
            (n - read).min(capacity - written),
            x,
            to + written,
        );
        read += run;
        written += run;
        if n <= read {
            return Some(written);
        }
        if room[from + read] != x {
            return None;
        }
        if capacity - written < m {
            return None;
        }
        copy(room, by, m, to + written);
        read += 1;
        written += m;
    }
}

// Copies the n words at `from` to the place `to`, with the m words at `by` for each word x, in at most `capacity` words.
// Answers how many words they are. Where the capacity does not suffice, what comes before the first word that does not fit is
// written, and the answer is None. Many terms are one word, which needs no loop.
pub fn replace(
    room: &mut [u16],
    from: usize,
    n: usize,
    x: u16,
    by: usize,
    m: usize,
    to: usize,
    capacity: usize,
) -> Option<usize>
    requires { ReplaceParts room.old from n by m to capacity }
    ensures value { result ≡ told capacity (replaced x (seg room.old by m) (seg room.old from n)) }
    ensures room_after { room.new ≡ put room.old to (fitting x (seg room.old by m) capacity (seg room.old from n)) }
{
    if n == 1 {
        return replace_word(room, from, x, by, m, to, capacity);
    }
    replace_all(room, from, n, x, by, m, to, capacity)
}
