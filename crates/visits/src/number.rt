// The number of a row's next child, in two words of its header.
ghost use Rattle.std.specs.Prelude.{◌≡◌, ◌+◌, ◌*◌, ◌<◌, ◌^◌, length};
ghost use Rattle.room.specs.Room.{put, Within};
ghost use Rattle.room.specs.Layout.{HEADER};
ghost use Rattle.visits.specs.ChildNumber.{number_of, number_words};

fn number_from(low: u16, high: u16) -> usize
    ensures { result ≡ low + 65536 * high }
{
    usize::from(low) + 65536 * usize::from(high)
}

// The number of its two words, low and high.
pub fn number_in(words: &[u16]) -> usize
    requires { length words.now ≡ 2 }
    ensures { result ≡ number_of words.now }
{
    number_from(words[0], words[1])
}

// Writes the number of the next child of the row at `at`.
pub fn set_number(room: &mut [u16], at: usize, number: usize)
    requires { Within room.old at HEADER × (number < 2 ^ 32) }
    ensures { room.new ≡ put room.old (at + 5) (number_words number) }
{
    let low = number % 65536;
    let high = number / 65536;
    // Kept: `as`, for the number is known to fit, and `try_from` would bring an error that can't come.
    let words = [low as u16, high as u16];
    room::copy_in(room, at + 5, &words);
}
