// The entries as C calls them; include/mensorique.h declares them and is the caller's reference. Each takes what an entry of `mensorique` takes, with a
// slice as a pointer and a length. A status comes back: 0, and the out numbers are written; or the refusal's number, and the place alone is written.
//
// Crates `c_replies` and `c_verdicts` say which status and which out numbers an answer gives, and tell them; `c_run` has the call of a run, and `c_room` how many
// words its room has. In specs/, `CallsFromC` says what a call gives by the entry's own definition of what was lent: the reply, and each buffer as the entry leaves it.
#![tactic(auto)]

ghost use Rattle.std.specs.Prelude.{◌≡◌, [], ◌∷◌, length as len};
ghost use Rattle.terms.specs.Bounds.{edition_one};
ghost use Rattle.terms.specs.Listing.{answers_of};
ghost use Rattle.terms.specs.Reading.{question_of};
ghost use Rattle.search.specs.Ends.{end_of};
ghost use Rattle.text.specs.Text.{question_text};
ghost use Rattle.reader.specs.LentBuffers.{question_into};
ghost use Rattle.writer.specs.Written.{question_written, list_written, text_of_list};
ghost use Rattle.equality.specs.Answering.{equal_answer, solves_answer};
ghost use Rattle.results.specs.Result.{told};
ghost use Rattle.c_replies.specs.Replies.{Replied, of_verdict};
ghost use Rattle.c_room.specs.RoomForC.{room_words};
ghost use Rattle.c_run.specs.RunFromC.{RunReplied};
ghost use Rattle.mensorique_c.specs.CallsFromC.{ReadReplied, WriteReplied};

use c_replies::{tell_question, tell_written};
use c_run::call_run;
use c_verdicts::tell_verdict;
use room::layout::{HEADER, SPARE_ROWS};
use search::limits::Limits;

// Kept: the parameters are those of include/mensorique.h.
#[unsafe(no_mangle)]
pub extern "C" fn mensorique_read_question(
    text: &[u8],
    arities: &mut [u8],
    words: &mut [u16],
    unknowns: &mut usize,
    functors: &mut usize,
    equations: &mut usize,
    used: &mut usize,
    place: &mut usize,
) -> u32
    ensures { ReadReplied (question_into edition_one (len arities.old) (len words.old) text.now) result
        (unknowns.old ∷ functors.old ∷ equations.old ∷ used.old ∷ []) (unknowns.new ∷ functors.new ∷ equations.new ∷ used.new ∷ [])
        place.old place.new arities.old arities.new words.old words.new }
{
    let question = mensorique::read_question(text, arities, words);
    tell_question(question, unknowns, functors, equations, used, place)
}

#[unsafe(no_mangle)]
pub extern "C" fn mensorique_write_question(
    unknowns: usize,
    arities: &[u8],
    equations: usize,
    words: &[u16],
    text: &mut [u8],
    length: &mut usize,
    place: &mut usize,
) -> u32
    ensures { WriteReplied (question_written edition_one unknowns arities.now equations words.now (len text.old))
        (question_text (question_of edition_one unknowns arities.now words.now)) result
        (length.old ∷ []) (length.new ∷ []) place.old place.new text.old text.new }
{
    let written = mensorique::write_question(unknowns, arities, equations, words, text);
    tell_written(written, length, place)
}

// Kept: the parameters are those of include/mensorique.h.
#[unsafe(no_mangle)]
pub extern "C" fn mensorique_write_answers(
    arities: &[u8],
    end: u64,
    visited: u64,
    answers: usize,
    words: &[u16],
    text: &mut [u8],
    length: &mut usize,
    place: &mut usize,
) -> u32
    ensures { WriteReplied (list_written edition_one arities.now end visited answers words.now (len text.old))
        (text_of_list (end_of end) visited (answers_of edition_one arities.now answers words.now)) result
        (length.old ∷ []) (length.new ∷ []) place.old place.new text.old text.new }
{
    let written = mensorique::write_answers(arities, end, visited, answers, words, text);
    tell_written(written, length, place)
}

#[unsafe(no_mangle)]
pub extern "C" fn mensorique_equal(
    arities: &[u8],
    row: &[u16],
    equal: &mut u32,
    place: &mut usize,
) -> u32
    ensures { Replied (of_verdict (equal_answer edition_one arities.now row.now)) result
        (equal.old ∷ []) (equal.new ∷ []) place.old place.new }
{
    let verdict = mensorique::equal(arities, row);
    tell_verdict(verdict, equal, place)
}

#[unsafe(no_mangle)]
pub extern "C" fn mensorique_solves(
    unknowns: usize,
    arities: &[u8],
    equations: usize,
    words: &[u16],
    row: &[u16],
    solves: &mut u32,
    place: &mut usize,
) -> u32
    ensures { Replied (of_verdict (solves_answer edition_one unknowns arities.now equations words.now row.now)) result
        (solves.old ∷ []) (solves.new ∷ []) place.old place.new }
{
    let verdict = mensorique::solves(unknowns, arities, equations, words, row);
    tell_verdict(verdict, solves, place)
}

// Kept: the parameters are those of include/mensorique.h.
#[unsafe(no_mangle)]
pub extern "C" fn mensorique_run(
    unknowns: usize,
    arities: &[u8],
    equations: usize,
    words: &[u16],
    steps: u64,
    depth: usize,
    size: usize,
    answers: &mut [u16],
    room: &mut [u16],
    end: &mut u32,
    visited: &mut u64,
    count: &mut u64,
    used: &mut usize,
    place: &mut usize,
) -> u32
    ensures { RunReplied (told unknowns arities.now equations words.now steps depth size (len answers.old) (len room.old)) result
        (end.old ∷ visited.old ∷ count.old ∷ used.old ∷ []) (end.new ∷ visited.new ∷ count.new ∷ used.new ∷ [])
        place.old place.new answers.old answers.new room.old room.new }
{
    call_run(
        unknowns, arities, equations, words, steps, depth, size, answers, room, end, visited,
        count, used, place,
    )
}

// (depth + 8) * (size + 8), or 0 where a limit is exceeded.
// Kept: C is told so, as include/mensorique.h says.
#[unsafe(no_mangle)]
pub extern "C" fn mensorique_room_words(depth: usize, size: usize) -> usize
    ensures { result ≡ room_words depth size }
{
    if Limits::DEPTH < depth {
        return 0;
    }
    if Limits::SIZE < size {
        return 0;
    }
    (depth + SPARE_ROWS) * (size + HEADER)
}
