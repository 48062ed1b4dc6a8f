// The sides of a split that stands open in scratch: its first two rows hold the places of their members, and the numbers stand after the picks, which
// are in the third.
ghost use Rattle.std.specs.Prelude.{◌≡◌};
ghost use Rattle.room.specs.Room.{put};
ghost use Rattle.noted_sides.specs.NotedSides.{numbers_of, NumberParts, sides_in, SidesParts};

use choices::sides::Sides;
use room::layout::HEADER;

// Writes the numbers of members and of words.
// Kept: `as`, for a contract bounds the number, and `try_from` would bring an error that can't come.
pub fn show_sides(room: &mut [u16], sides: Sides, to: usize)
    requires { NumberParts room.old sides to }
    ensures { room.new ≡ put room.old to (numbers_of sides) }
{
    room[to] = sides.n as u16;
    room[to + 1] = sides.m as u16;
    room[to + 2] = sides.end as u16;
}

// The sides, read back.
pub fn shown_sides(room: &[u16], size: usize, scratch: usize) -> Sides
    requires { SidesParts room.now size scratch }
    ensures { result ≡ sides_in room.now size scratch }
{
    let us = scratch + (size + HEADER);
    let told = us + (size + HEADER) + size;
    let n = usize::from(room[told]);
    let m = usize::from(room[told + 1]);
    let end = usize::from(room[told + 2]);
    let right = usize::from(room[us]);
    let s = usize::from(room[scratch + n]);
    let r = usize::from(room[us + m]);
    Sides {
        n,
        m,
        right,
        end,
        s,
        r,
    }
}
