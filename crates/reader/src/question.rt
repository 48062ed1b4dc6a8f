// A question's text, read into lent buffers.
ghost use Rattle.std.specs.Prelude.{length};
ghost use Rattle.terms.specs.Bounds.{edition_one};
ghost use Rattle.reader.specs.LentBuffers.{ReadGives, question_into};

use beginnings::declared::Arities;
use items::item::Words;
use question_reader::whole::read_whole;
use results::read::Counts;
use terms::refusal::{Cause, Refusal};

// The question of a text: its arities and its words go to the start of the lent buffers, and what stands after them stays.
// A refused text leaves both alone. The whole is read before a buffer is written.
pub fn read_question(text: &[u8], arities: &mut [u8], words: &mut [u16]) -> Result<Counts, Refusal>
    ensures { ReadGives (question_into edition_one (length arities.old) (length words.old) text.now) result arities.old arities.new words.old words.new }
{
    let mut table = Arities::new();
    let mut held = Words::new();
    let counts = read_whole(text, &mut table, &mut held)?;
    if arities.len() < counts.functors {
        return Err(Refusal {
            cause: Cause::Buffer,
            place: counts.functors,
        });
    }
    if words.len() < counts.words {
        return Err(Refusal {
            cause: Cause::Buffer,
            place: counts.words,
        });
    }
    arities[..counts.functors].copy_from_slice(table.as_slice());
    words[..counts.words].copy_from_slice(held.as_slice());
    Ok(counts)
}
