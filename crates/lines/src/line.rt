// Lines: a key, a value and one LF.
ghost use Rattle.terms.specs.Bounds.{edition_one};
ghost use Rattle.text.specs.Text.{decimal, line};
ghost use Rattle.lines.specs.Lines.{term_line};
ghost use Rattle.word_writer.specs.Pen.{Wrote};
ghost use Rattle.word_writer.specs.WordByWord.{Passed};

use term_writer::term::write_term;
use word_writer::put::{Passage, TooDeep, put_byte, put_bytes, put_number};

pub fn put_number_line(text: &mut [u8], at: usize, key: &[u8], number: u64) -> usize
    ensures { Wrote text.old at (line key.now (decimal number)) text.new result }
{
    let value = put_bytes(text, at, key);
    let end = put_number(text, value, number);
    put_byte(text, end, b'\n')
}

// The line of the term that begins at the word `from`.
pub fn write_term_line(
    arities: &[u8],
    words: &[u16],
    from: usize,
    key: &[u8],
    text: &mut [u8],
    at: usize,
) -> Result<Passage, TooDeep>
    ensures { Passed text.old at (term_line edition_one arities.now words.now key.now from) result text.new }
{
    let value = put_bytes(text, at, key);
    let term = write_term(arities, words, from, text, value)?;
    Ok(Passage {
        word: term.word,
        at: put_byte(text, term.at, b'\n'),
    })
}
