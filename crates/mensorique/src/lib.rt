// The public entries of Mensorique, and nothing else. Each takes any input whatever, never fails, and is proved to give back and to leave in the
// lent buffers what the definitions named in its contract say. A buffer lent by `&mut` is written only where an entry says so; a refusal leaves
// every lent buffer untouched.
//
// A question is a count of unknowns, a list of arities (one for each functor), a count of equations, and the prefix words of two terms for each
// equation: 0 is the empty set; 1 is member adding, followed by the member and the rest; 1000 + i is unknown i; 2000 + k is functor k, followed by
// its arguments. For x0 = {f0|x0} with f0 of arity 0: unknowns 1, arities [0], equations 1, words [1000, 1, 2000, 1000].
//
// A refusal is a cause and a place. `number_of` gives a cause's number in the table:
//   1 a byte that the text form hasn't here, or the text stops      5 wrong count of arguments
//   2 number missing or with a leading zero                        6 nesting above 200
//   3 number, count, run limit or 4,097th symbol above its limit    7 output buffer or room too small, its place being what is needed
//   4 unknown or functor not declared                              8 words that form no such question, answer list or ground term
//
// Counts are taken at full width: one that is too large is refused, never cut.
#![tactic(auto)]

ghost use Rattle.std.specs.Prelude.{◌≡◌, length};
ghost use Rattle.terms.specs.Bounds.{edition_one};
ghost use Rattle.terms.specs.Listing.{answers_of};
ghost use Rattle.terms.specs.Reading.{question_of};
ghost use Rattle.search.specs.Ends.{end_of};
ghost use Rattle.text.specs.Text.{question_text};
ghost use Rattle.reader.specs.LentBuffers.{ReadGives, question_into};
ghost use Rattle.writer.specs.Written.{held, question_written, list_written, text_of_list};
ghost use Rattle.equality.specs.Answering.{equal_answer, solves_answer};
ghost use Rattle.results.specs.Result.{RunGives, told};

pub use results::ran::{Ending, Record};
pub use results::read::Counts;
pub use search::ends::{End, number_of_end};
pub use terms::refusal::{Cause, Refusal, number_of};

// Reads a question's text.
//   Lent: the text; a buffer for arities, of which 256 always suffice; a buffer for words, of which 4,096 always suffice.
//   Back: `Ok` with the counts of its unknowns, functors, equations and words; the arities and the words stand at the start of their buffers, and what
//   comes after them is unchanged. Or `Err`: 1 to 6, the first fault from the left; then 7 for the arities' buffer; then 7 for the words'.
//   Example: the six lines edition=1, unknowns=1, arities=0, equations=1, left=x0, right={f0|x0} give the counts 1, 1, 1 and 4, arities 0, words
//   1000 1 2000 1000.
pub fn read_question(text: &[u8], arities: &mut [u8], words: &mut [u16]) -> Result<Counts, Refusal>
    ensures { ReadGives (question_into edition_one (length arities.old) (length words.old) text.now) result arities.old arities.new words.old words.new }
{
    reader::question::read_question(text, arities, words)
}

// Writes a question as text.
//   Lent: the question; a buffer for the text, of which 32,768 bytes always suffice.
//   Back: `Ok(n)`; the text stands in the first n bytes of its buffer, and what comes after it is unchanged. Or the refusal, `Err`: 3 with place 0 for the
//   unknowns, the arities or the equations; 3 at 4096 for too many words; 8 at the first word that can't stand there, or at the length; 6 at
//   the word that opens a bracket too many; 7 with the length needed.
//   Example: 1, [0], 1, [1000, 1, 2000, 1000] and a buffer of 65 bytes give Ok(65), the six lines of `read_question`.
pub fn write_question(
    unknowns: usize,
    arities: &[u8],
    equations: usize,
    words: &[u16],
    text: &mut [u8],
) -> Result<usize, Refusal>
    ensures told { result ≡ question_written edition_one unknowns arities.now equations words.now (length text.old) }
    ensures text { text.new ≡ held result (question_text (question_of edition_one unknowns arities.now words.now)) text.old }
{
    writer::question::write_question(unknowns, arities, equations, words, text)
}

// Writes a list of answers as text.
//   Lent: the arities of the question; the run's end, by its number (0, 20 to 24), its visited number and its count of answers; the list's words:
//   for each answer its number of bindings, and for each binding the unknown's number and its value; a buffer for the text.
//   Back: as of `write_question`. Refused with 3 and place 0 for an end that there isn't, a visited number above 1,000,000,000 or the arities;
//   then 8, 6 and 7. The number of words has no bound, and unknowns run to 511.
//   Example: [0], end 0, visited 3, answers 1, words [1, 0, 1, 2000, 1001] give the lines edition=1, end=done, visited=3, answers=1,
//   bindings=1, unknown=0, value={f0|x1}.
pub fn write_answers(
    arities: &[u8],
    end: u64,
    visited: u64,
    answers: usize,
    words: &[u16],
    text: &mut [u8],
) -> Result<usize, Refusal>
    ensures told { result ≡ list_written edition_one arities.now end visited answers words.now (length text.old) }
    ensures text { text.new ≡ held result (text_of_list (end_of end) visited (answers_of edition_one arities.now answers words.now)) text.old }
{
    list_writer::list::write_answers(arities, end, visited, answers, words, text)
}

// Are two ground terms equal by the laws?
//   Lent: the arities; the words of both terms in one row, left first.
//   Back: `Ok(true)` where they are equal, `Ok(false)` where they differ. Or `Err`: 3 with place 0 for the arities, 3 at 4096 for too many words, 8 along the row.
//   Example: [0] and [1, 2000, 0, 1, 2000, 1, 2000, 0], which is {f0} and {f0,f0}, give Ok(true).
pub fn equal(arities: &[u8], row: &[u16]) -> Result<bool, Refusal>
    ensures { result ≡ equal_answer edition_one arities.now row.now }
{
    equality::equal(arities, row)
}

// Do given ground values solve a question?
//   Lent: the question; the words of one value for each unknown, in order, in one row.
//   Back: `Ok(true)` where they do, `Ok(false)` where they don't. Or `Err`: 3 and 8 for the question, as in `write_question`; then 3 and 8 for the row, as in `equal`.
//   Example: 1, [0], 1, [1000, 1, 2000, 1000], which is x0 = {f0|x0}, and the row [1, 2000, 0], which is {f0}, give Ok(true).
pub fn solves(
    unknowns: usize,
    arities: &[u8],
    equations: usize,
    words: &[u16],
    row: &[u16],
) -> Result<bool, Refusal>
    ensures { result ≡ solves_answer edition_one unknowns arities.now equations words.now row.now }
{
    equality::solves(unknowns, arities, equations, words, row)
}

// Searches for every solved form of a question, within limits.
//   Lent: the question; the limits: steps 0 to 1,000,000,000, depth 0 to 1,024, size 0 to 8,192; a buffer for the answers' words, of any length; the room
//   to work in, of (depth + 8) * (size + 8) words or more. What the room holds changes no result.
//   Back: `Ok`, with the end, the nodes visited, the answers listed and the words that these take. They stand at the start of the answers' buffer, as
//   `write_answers` takes them, and what comes after them is unchanged. `Done` is final: ground values solve the question exactly if they fit a listed
//   answer. Every other end says that the search is not finished, and what to lend more of; the answers listed are true all the same, and a longer run
//   lists them first. Or `Err`: 3 with place 0 for the limits; then 3 and 8 for the question, as in `write_question`; then 7 with the words that the room
//   must have. The room's later words are not told, except that a refusal leaves them alone.
//   Example: 1, [0], 1, [1000, 1, 2000, 1000], which is x0 = {f0|x0}, steps 3, depth 2, size 4, five answer words and a room of 120 give Done, visited 3, one
//   answer of 5 words, 1 0 1 2000 1001: one binding, x0 = {f0|x1}.
// Kept: the parameters are what docs/SPECIFICATION.md (8.6) lists as lent, one by one, and what C lends.
pub fn run(
    unknowns: usize,
    arities: &[u8],
    equations: usize,
    words: &[u16],
    steps: u64,
    depth: usize,
    size: usize,
    answers: &mut [u16],
    room: &mut [u16],
) -> Result<Ending, Refusal>
    ensures { RunGives (told unknowns arities.now equations words.now steps depth size (length answers.old) (length room.old)) result answers.old answers.new room.old room.new }
{
    solver::run(
        unknowns, arities, equations, words, steps, depth, size, answers, room,
    )
}
