// Things that stand in words one after the other, written each on lines of its own.
ghost use Rattle.std.specs.Prelude.{ℕ, List};
ghost use Rattle.lines.specs.Lines.{repeat};
ghost use Rattle.word_writer.specs.WordByWord.{Walk, Passed};

use word_writer::put::{Passage, TooDeep};

// A kind of thing that stands in words.
pub trait Thing {
    // What is written for the one that begins at a word, by the arities and the words.
    ghost thing_at: { List ℕ → List ℕ → ℕ → Walk };

    // The one that begins at the word `from`.
    fn write(
        arities: &[u8],
        words: &[u16],
        from: usize,
        text: &mut [u8],
        at: usize,
    ) -> Result<Passage, TooDeep>
        ensures { Passed text.old at (thing_at arities.now words.now from) result text.new };
}

// So many things of a kind from the word `from` on.
pub fn write_each<T: Thing>(
    arities: &[u8],
    words: &[u16],
    count: usize,
    from: usize,
    text: &mut [u8],
    at: usize,
) -> Result<Passage, TooDeep>
    ensures { Passed text.old at (repeat (T.thing_at arities.now words.now) count from) result text.new }
{
    let mut passage = Passage { word: from, at };
    for _ in 0..count {
        passage = T::write(arities, words, passage.word, text, passage.at)?;
    }
    Ok(passage)
}
