// The root's row: the question's equations are pending, and nothing else is held.
ghost use Rattle.std.specs.Prelude.{◌≡◌, ◌+◌, ◌≤◌, ◌<◌, length};
ghost use Rattle.room.specs.Layout.{HEADER};
ghost use Rattle.search_loop.specs.Root.{rooted};

use room::layout::HEADER;
use rows::header::{Header, seal};

pub fn write_root(room: &mut [u16], words: &[u16], unknowns: usize)
    requires { (HEADER + length words.now ≤ length room.old) × ((length words.now < 65536) × (unknowns < 65536)) }
    ensures { room.new ≡ rooted room.old words.now unknowns }
{
    let n = words.len();
    room::copy_in(room, HEADER, words);
    seal(
        room,
        0,
        Header {
            pending: n,
            pile: 0,
            body: n,
            bindings: 0,
            next: unknowns,
        },
    );
}
