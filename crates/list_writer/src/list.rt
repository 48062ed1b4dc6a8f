// The writer of answer lists.
ghost use Rattle.std.specs.Prelude.{◌≡◌, length, ltb};
ghost use Rattle.search.specs.Ends.{end_of, end_word};
ghost use Rattle.search.specs.RunLimits.{most_steps};
ghost use Rattle.terms.specs.Bounds.{edition_one};
ghost use Rattle.checks.specs.Check.{above, check_answers};
ghost use Rattle.terms.specs.Listing.{answers_of};
ghost use Rattle.lines.specs.ListLines.{list_lines};
ghost use Rattle.writer.specs.Written.{held, measured, text_of_list, list_written, Held};

use lent_words::check_answers;
use lines::list_lines::write_list;
use search::ends::{End, end_of_number};
use search::limits::Limits;
use terms::refusal::{Cause, Refusal};
use writer::written::answer;

// What is to be answered for checked words where so many bytes are lent: the text is written to a buffer that holds nothing.
fn measure_list(
    arities: &[u8],
    end: End,
    visited: u64,
    answers: usize,
    words: &[u16],
    room: usize,
) -> Result<usize, Refusal>
    ensures { result ≡ measured (list_lines edition_one (end_word end) arities.now visited answers words.now) room }
{
    let mut nothing = [0u8; 0];
    answer(
        write_list(arities, end, visited, answers, words, &mut nothing),
        room,
    )
}

// The list of a run that ended so, its words being checked.
fn write_checked(
    arities: &[u8],
    end: End,
    visited: u64,
    answers: usize,
    words: &[u16],
    text: &mut [u8],
) -> Result<usize, Refusal>
    ensures value { result ≡ measured (list_lines edition_one (end_word end) arities.now visited answers words.now) (length text.old) }
    ensures held { Held result (list_lines edition_one (end_word end) arities.now visited answers words.now) text.old text.new }
{
    let length = measure_list(arities, end, visited, answers, words, text.len())?;
    let _ = write_list(arities, end, visited, answers, words, text);
    Ok(length)
}

fn check_list(arities: &[u8], visited: u64, answers: usize, words: &[u16]) -> Result<(), Refusal>
    ensures { result ≡ above (ltb most_steps visited) 0 (check_answers edition_one arities.now answers words.now) }
{
    if Limits::STEPS < visited {
        return Err(Refusal {
            cause: Cause::Limit,
            place: 0,
        });
    }
    check_answers(arities, answers, words)
}

// The writer of an answer list, SPECIFICATION 8.3, with the end by its number: tests 3, 8, 6, then 7 before a byte is written. The buffer then holds
// the text from its start and is unchanged after it; on refusal it is untouched.
pub fn write_answers(
    arities: &[u8],
    end: u64,
    visited: u64,
    answers: usize,
    words: &[u16],
    text: &mut [u8],
) -> Result<usize, Refusal>
    ensures value { result ≡ list_written edition_one arities.now end visited answers words.now (length text.old) }
    ensures text_after { text.new ≡ held result (text_of_list (end_of end) visited (answers_of edition_one arities.now answers words.now)) text.old }
{
    let Some(ended) = end_of_number(end) else {
        return Err(Refusal {
            cause: Cause::Limit,
            place: 0,
        });
    };
    check_list(arities, visited, answers, words)?;
    write_checked(arities, ended, visited, answers, words, text)
}
