// How a row's answer is noted: it is counted, and listed in the lent words.
//
// In specs/, `Noting` says which words an answer adds and what the record becomes; `RowAnswer` has the laws of a row's answer: where the row holds a state,
// it is the answer that the state is.
#![tactic(auto)]

ghost use Rattle.std.specs.Prelude.{◌≡◌, ◌+◌, ◌≤◌, length};
ghost use Rattle.room.specs.Room.{put};
ghost use Rattle.room.specs.Layout.{HEADER};
ghost use Rattle.answer_record.specs.Noting.{answer_in, Notable, listed_by, note_by, held_by};

use counters::with_answer;
use results::ran::Record;
use room::layout::HEADER;
use rows::first::read_header;

// Lists the answer of the row's words, of whose body there are n, at the end of the words used.
fn list_answer(row: &[u16], n: usize, answers: &mut [u16], used: usize)
    requires { (HEADER + n ≤ length row.now) × (used + 1 + n ≤ length answers.old) }
    ensures { answers.new ≡ put answers.old used (listed_by row.now n) }
{
    let end = HEADER + n;
    answers[used] = row[3];
    room::copy_in(answers, used + 1, &row[HEADER..end]);
}

// Notes the answer that the row's words are, if they are one; `None` where its words don't fit what remains.
pub fn note(row: &[u16], answers: &mut [u16], counts: Record) -> Option<Record>
    requires { Notable row.now answers.old counts }
    ensures value { result ≡ note_by (answer_in row.now) (length answers.old) counts }
    ensures answers_after { answers.new ≡ held_by (answer_in row.now) answers.old counts }
{
    let header = read_header(&row[..5]);
    if 0 < header.pending {
        return Some(counts);
    }
    if 0 < header.pile {
        return Some(counts);
    }
    let n = header.body;
    let used = counts.words;
    if answers.len() - used < 1 + n {
        return None;
    }
    list_answer(row, n, answers, used);
    Some(with_answer(counts, 1 + n))
}
