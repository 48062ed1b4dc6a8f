// The picks of a child's number: its digits, first those of the t's and then those of the u's, the last fastest.
ghost use Rattle.std.specs.Prelude.{◌++◌, ◌+◌, ◌<◌};
ghost use Rattle.room.specs.Room.{seg};
ghost use Rattle.choices.specs.Digits.{copies, Decoded, Advanced, DigitParts, PickParts};

// Writes n digits of a number; answers what is left of the number.
// Kept: `as`, for a contract bounds the number, and `try_from` would bring an error that can't come.
fn digits_of(room: &mut [u16], number: usize, n: usize, radix: usize, to: usize) -> usize
    requires { DigitParts room.old n radix to }
    ensures { Decoded room.old to (copies n radix) number result room.new }
{
    let mut left = number;
    for i in (0..n).rev() {
        room[to + i] = (left % radix) as u16;
        left = left / radix;
    }
    left
}

// Writes n digits of the first radix and m of the second; answers what is left of the number.
pub fn digits(
    room: &mut [u16],
    number: usize,
    n: usize,
    first: usize,
    m: usize,
    second: usize,
    to: usize,
) -> usize
    requires { DigitParts room.old n first to × DigitParts room.old m second (to + n) }
    ensures { Decoded room.old to (copies n first ++ copies m second) number result room.new }
{
    let left = digits_of(room, number, m, second, to + n);
    digits_of(room, left, n, first, to)
}

// The next digits after those that stand there, n of one radix; false where there are none, and all are 0 again.
// Kept: `as`, for a contract bounds the number, and `try_from` would bring an error that can't come.
// Kept: `n` is a number of digits inside the lent room, and no length of it.
fn advance_of(room: &mut [u16], n: usize, radix: usize, at: usize) -> bool
    requires { PickParts room.old n radix at }
    ensures { Advanced room.old at (copies n radix) (seg room.old at n) result room.new }
{
    for i in (0..n).rev() {
        let pick = usize::from(room[at + i]) + 1;
        if pick < radix {
            room[at + i] = pick as u16;
            return true;
        }
        room[at + i] = 0;
    }
    false
}

// The next picks, n of the first radix and m of the second.
// Kept: `n` is a number of digits inside the lent room, and no length of it.
pub fn advance(room: &mut [u16], n: usize, first: usize, m: usize, second: usize, at: usize) -> bool
    requires { PickParts room.old n first at × PickParts room.old m second (at + n) }
    ensures { Advanced room.old at (copies n first ++ copies m second) (seg room.old at (n + m)) result room.new }
{
    if advance_of(room, m, second, at + n) {
        return true;
    }
    advance_of(room, n, first, at)
}
