// A split's equation taken apart.
ghost use Rattle.choices.specs.Open.{OpenParts, SidesOpened};

use crate::members::note_members;
use room::layout::HEADER;

// The numbers of members of its two sides; where the right side begins, and where it ends; where the two tails stand. Places are counted from the
// body's first word.
#[derive(Clone, Copy)]
pub struct Sides {
    pub n: usize,
    pub m: usize,
    pub right: usize,
    pub end: usize,
    pub s: usize,
    pub r: usize,
}

// Notes the members of both sides of the first equation, whose right side begins at `right` and ends at `end`, in the first two rows of scratch.
pub fn open_sides(
    arities: &[u8],
    room: &mut [u16],
    from: usize,
    right: usize,
    end: usize,
    size: usize,
    scratch: usize,
) -> Sides
    requires { OpenParts arities.now room.old from right end size scratch }
    ensures { SidesOpened arities.now room.old from right end size scratch result room.new }
{
    let body = from + HEADER;
    let us = scratch + (size + HEADER);
    let n = note_members(arities, room, body, 0, end, scratch);
    let m = note_members(arities, room, body, right, end, us);
    let s = usize::from(room[scratch + n]);
    let r = usize::from(room[us + m]);
    Sides {
        n,
        m,
        right,
        end,
        s,
        r,
    }
}
