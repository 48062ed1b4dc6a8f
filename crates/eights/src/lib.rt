// Words of a room copied up to a given word: eight at one go, unless one of them is that word, then one by one.
#![tactic(auto)]

ghost use Rattle.std.specs.Prelude.{◌≡◌, cond, [], ◌∷◌, length};
ghost use Rattle.room.specs.Room.{seg, put, Within};
ghost use Rattle.room.specs.Parts.{CopyParts};
ghost use Rattle.room.specs.Replaced.{clear, before};
ghost use Rattle.eights.specs.Block.{BLOCK};

// How many words are copied at one go.
const BLOCK: usize = 8;

// Copies the eight words at `from`, unless one of them is x; answers whether it did. They are read before any is written, so that a machine may take them
// all at once.
pub fn copy_eight(room: &mut [u16], from: usize, x: u16, to: usize) -> bool
    requires { CopyParts room.old from BLOCK to }
    ensures value { result ≡ clear x (seg room.old from BLOCK) }
    ensures room_after { room.new ≡ put room.old to (cond result (seg room.old from BLOCK) []) }
{
    let mut words = [0; BLOCK];
    words.copy_from_slice(&room[from..from + BLOCK]);
    let clear = !words.contains(&x);
    if clear {
        room::copy_in(room, to, &words);
    }
    clear
}

// Copies those of the n words at `from` that stand before the first x, and answers how many they are: eight at a time while
// none of the eight is x, then one by one.
pub fn copy_before(room: &mut [u16], from: usize, n: usize, x: u16, to: usize) -> usize
    requires { CopyParts room.old from n to }
    ensures value { result ≡ length (before x (seg room.old from n)) }
    ensures room_after { room.new ≡ put room.old to (before x (seg room.old from n)) }
{
    let mut run = 0;
    // Kept: a `for` over blocks would have to count the words copied all the same, since the next loop goes on from there.
    while BLOCK <= n - run {
        if !copy_eight(room, from + run, x, to + run) {
            break;
        }
        run += BLOCK;
    }
    for place in run..n {
        let word = room[from + place];
        if word == x {
            return place;
        }
        room[to + place] = word;
    }
    n
}
