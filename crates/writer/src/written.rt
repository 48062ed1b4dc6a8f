// What a writer answers.
ghost use Rattle.std.specs.Prelude.{◌≡◌};
ghost use Rattle.writer.specs.Written.{answered};

use terms::refusal::{Cause, Refusal};
use word_writer::put::{Passage, TooDeep};

// What is answered where so many bytes are lent, by what writing the text comes to.
pub fn answer(passage: Result<Passage, TooDeep>, room: usize) -> Result<usize, Refusal>
    ensures { result ≡ answered passage room }
{
    let length = passage?.at;
    if room < length {
        return Err(Refusal {
            cause: Cause::Buffer,
            place: length,
        });
    }
    Ok(length)
}
