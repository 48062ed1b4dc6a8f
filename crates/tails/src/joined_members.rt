// The members that picked the other side's tail.
ghost use Rattle.std.specs.Prelude.{◌≡◌, ◌+◌, ◌≤◌, length, get_or};
ghost use Rattle.room.specs.Room.{put};
ghost use Rattle.choices.specs.Gathered.{joining_piece, TailParts};

// Copies the members, each with its mark, whose pick is none of the other side's members, so many; answers how many words they are.
pub fn tail_members(
    room: &mut [u16],
    body: usize,
    places: usize,
    picks: usize,
    n: usize,
    others: usize,
    to: usize,
) -> usize
    requires { TailParts room.old body places picks n to }
    ensures value { (result ≡ length (joining_piece room.old body places picks n others)) × (result ≤ get_or room.old (places + n) 0) }
    ensures room_after { room.new ≡ put room.old to (joining_piece room.old body places picks n others) }
{
    let mut written = 0;
    for i in 0..n {
        if others <= usize::from(room[picks + i]) {
            let p = usize::from(room[places + i]);
            let q = usize::from(room[places + i + 1]);
            room::copy(room, body + p, q - p, to + written);
            written += q - p;
        }
    }
    written
}
