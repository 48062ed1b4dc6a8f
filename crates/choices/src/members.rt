// Where the members of an equation's side stand in its row.
ghost use Rattle.std.specs.Prelude.{◌≡◌, ◌+◌, ◌-◌, length};
ghost use Rattle.room.specs.Room.{seg, put};
ghost use Rattle.terms.specs.Bounds.{edition_one};
ghost use Rattle.choices.specs.MemberPlaces.{noted, NoteParts};

use terms::bounds::MEMBER;
use terms::kind::terms_after;

// Notes the places of a set's member marks, and then of its kernel; answers how many members there are. The set begins at the place `first` of the
// words at `body`, of which `end` are read; places are counted from there.
// Kept: `as`, for a contract bounds the number, and `try_from` would bring an error that can't come.
pub fn note_members(
    arities: &[u8],
    room: &mut [u16],
    body: usize,
    first: usize,
    end: usize,
    to: usize,
) -> usize
    requires { NoteParts room.old body first end to }
    ensures result_value { result + 1 ≡ length (noted edition_one arities.now (seg room.old (body + first) (end - first)) 0 first) }
    ensures room_after { room.new ≡ put room.old to (noted edition_one arities.now (seg room.old (body + first) (end - first)) 0 first) }
{
    let mut due = 0;
    let mut n = 0;
    for place in first..end {
        let word = room[body + place];
        if 0 < due {
            due = due - 1 + usize::from(terms_after(arities, word));
        } else {
            room[to + n] = place as u16;
            if word != MEMBER {
                return n;
            }
            n += 1;
            due = 1;
        }
    }
    room[to + n] = end as u16;
    n
}
