// The writer of questions.
ghost use Rattle.std.specs.Prelude.{◌≡◌, length};
ghost use Rattle.terms.specs.Bounds.{edition_one};
ghost use Rattle.terms.specs.Reading.{question_of};
ghost use Rattle.text.specs.Text.{question_text};
ghost use Rattle.lines.specs.Lines.{question_lines};
ghost use Rattle.writer.specs.Written.{held, question_written, measured};

use crate::written::answer;
use lent_words::check_question;
use lines::question_lines::write_lines;
use terms::refusal::Refusal;

// What is to be answered for checked words where so many bytes are lent: the text is written to a buffer that holds nothing.
fn measure(
    unknowns: usize,
    arities: &[u8],
    equations: usize,
    words: &[u16],
    room: usize,
) -> Result<usize, Refusal>
    ensures { result ≡ measured (question_lines edition_one unknowns arities.now equations words.now) room }
{
    let mut nothing = [0u8; 0];
    answer(
        write_lines(unknowns, arities, equations, words, &mut nothing),
        room,
    )
}

// The writer of a question, SPECIFICATION 8.2: tests 3, 8, 6, then 7 before a byte is written. The buffer then holds the text from its start and is
// unchanged after it; on refusal it is untouched.
pub fn write_question(
    unknowns: usize,
    arities: &[u8],
    equations: usize,
    words: &[u16],
    text: &mut [u8],
) -> Result<usize, Refusal>
    ensures value { result ≡ question_written edition_one unknowns arities.now equations words.now (length text.old) }
    ensures text_after { text.new ≡ held result (question_text (question_of edition_one unknowns arities.now words.now)) text.old }
{
    check_question(unknowns, arities, equations, words)?;
    let length = measure(unknowns, arities, equations, words, text.len())?;
    let _ = write_lines(unknowns, arities, equations, words, text);
    Ok(length)
}
