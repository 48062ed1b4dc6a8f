// A row of the room: the words of its header, then the body. specs/Row.antt says which word is what.
ghost use Rattle.std.specs.Prelude.{◌≡◌};
ghost use Rattle.room.specs.Room.{put, Within};
ghost use Rattle.room.specs.Layout.{HEADER};
ghost use Rattle.rows.specs.Header.{header_of, Small};

// The numbers of a header: the words of the pending equations, of the pile and of the whole body, the number of bindings, the next unknown.
#[derive(Clone, Copy)]
pub struct Header {
    pub pending: usize,
    pub pile: usize,
    pub body: usize,
    pub bindings: usize,
    pub next: usize,
}

// Writes a header, whose row has no child yet.
// Kept: `as`, for a contract bounds the number, and `try_from` would bring an error that can't come.
pub fn seal(room: &mut [u16], at: usize, header: Header)
    requires { Within room.old at HEADER × Small header }
    ensures { room.new ≡ put room.old at (header_of header) }
{
    let words = [
        header.pending as u16,
        header.pile as u16,
        header.body as u16,
        header.bindings as u16,
        header.next as u16,
        0,
        0,
        0,
    ];
    room::copy_in(room, at, &words);
}
