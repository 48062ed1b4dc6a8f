// Nothing is pending: the members of all entries of the pile's first unknown become its value.
ghost use Rattle.std.specs.Prelude.{◌≡◌, ◌<◌, ◌^◌, length};
ghost use Rattle.room.specs.Room.{seg, put};
ghost use Rattle.room.specs.Parts.{CopyParts};
ghost use Rattle.terms.specs.Bounds.{edition_one};
ghost use Rattle.plain_steps.specs.Join.{gathered};
ghost use Rattle.plain_steps.specs.JoinLaid.{JoinParts, Joined};

use binding::bind::finish_pile;
use rows::parts::{Made, Rest};
use rows::walk::{end_of_term, is_in, place_of_kernel};
use terms::bounds::PATH_UNKNOWNS;
use terms::kind::unknown_word;

// Writes the members, each with its mark, of all entries of x in the n words at `from`, and answers how many words they are.
// Kept: a turn of the loop steps over an entry, as long as its term is, so no `for` over places counts it.
fn gather(arities: &[u8], room: &mut [u16], from: usize, n: usize, x: u16, to: usize) -> usize
    requires { CopyParts room.old from n to × length room.old < 2 ^ 32 }
    ensures value { result ≡ length (gathered edition_one arities.now x n (seg room.old from n)) }
    ensures room_after { room.new ≡ put room.old to (gathered edition_one arities.now x n (seg room.old from n)) }
{
    let end = from + n;
    let mut read = 0;
    let mut written = 0;
    while read < n {
        let at = from + read;
        let after = at + 1;
        let size = end_of_term(arities, &room[after..end]) + 1;
        if room[at] == x {
            let k = place_of_kernel(arities, &room[after..end]);
            room::copy(room, after, k, to + written);
            written += k;
        }
        read += size;
    }
    written
}

// The pile's first unknown is bound to the members of all its entries, which are laid out at `value`, over a new unknown; its entries leave the pile.
pub fn join(
    arities: &[u8],
    room: &mut [u16],
    rest: Rest,
    value: usize,
    to: usize,
    size: usize,
    next: usize,
) -> Made
    requires { JoinParts room.old rest value to size next }
    ensures { Joined arities.now room.old rest value to size next result room.new }
{
    let at = rest.at;
    let x = room[at];
    let m = gather(arities, room, at, rest.pile, x, value);
    let last = value + m;
    if is_in(&room[value..last], x) {
        return Made::Dead;
    }
    if PATH_UNKNOWNS <= next {
        return Made::Names;
    }
    room[last] = unknown_word(next);
    Made::from(finish_pile(arities, room, rest, x, value, m + 1, to, 0, size, next + 1))
}
