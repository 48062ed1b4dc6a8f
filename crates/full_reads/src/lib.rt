// Reading into a lent buffer until it is full or the input ends.
#![tactic(auto)]

ghost use Rattle.std.specs.Prelude.{◌<◌, ◌≤◌, ℕ, length, take, IfOk, IfErr};
ghost use Rattle.std.specs.Io.{ReadsAtMost};
ghost use Rattle.std.specs.Io.KnownBytes.{Consumes, IsAtEnd};

use std::io::{Read, Result};

// How many bytes of the input stand at the start of the buffer: the buffer is full, or the input has no more. A read that fails is an error, and
// then too all that was taken from the input stands at the start of the buffer.
pub fn read_full<R: Read>(reader: &mut R, buffer: &mut [u8]) -> Result<usize>
    ensures bound { ReadsAtMost result buffer.new }
    ensures bytes { IfOk result (λ n. Consumes (R.remaining reader.old) (R.remaining reader.new) (take n buffer.new)) }
    ensures err { IfErr result
        (λ _. (n : ℕ) × (n ≤ length buffer.new) × Consumes (R.remaining reader.old) (R.remaining reader.new) (take n buffer.new)) }
    ensures end { IfOk result (λ n. n < length buffer.new → IsAtEnd (R.remaining reader.new)) }
{
    let mut filled = 0;
    // Kept: each read takes as many bytes as it takes, so no `for` counts them.
    while filled < buffer.len() {
        let more = reader.read(&mut buffer[filled..])?;
        if more == 0 {
            break;
        }
        filled += more;
    }
    Ok(filled)
}
