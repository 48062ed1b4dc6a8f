// Words moved about in one lent room: copied inside it, and copied into it from another slice. `layout` has the numbers of a run's room.
//
// A client's contracts cite `specs/Room.antt` (`seg`, `put`), `specs/Parts.antt` (`Apart`, where the parts of a call lie) and `specs/Replaced.antt` (words in
// which one is replaced), `specs/Layout.antt` the rows of a run's room.
#![tactic(auto)]

ghost use Rattle.std.specs.Prelude.{◌≡◌, length};
ghost use Rattle.room.specs.Room.{seg, put, Within};
ghost use Rattle.room.specs.Parts.{CopyParts};

pub mod layout;

// Copies the n words at `from` to the place `to`.
pub fn copy(room: &mut [u16], from: usize, n: usize, to: usize)
    requires { CopyParts room.old from n to }
    ensures { room.new ≡ put room.old to (seg room.old from n) }
{
    for j in 0..n {
        room[to + j] = room[from + j];
    }
}

// Copies all of `words` to the place `to` of the room.
pub fn copy_in(room: &mut [u16], to: usize, words: &[u16])
    requires { Within room.old to (length words.now) }
    ensures { room.new ≡ put room.old to words.now }
{
    for (j, word) in words.iter().enumerate() {
        room[to + j] = *word;
    }
}
