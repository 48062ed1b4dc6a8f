// How many words a question has with its values put in: where they are few, it is compared as it stands, and where a value stands in many places, places are
// settled first.
ghost use Rattle.std.specs.Prelude.{◌≤◌};

use terms::kind::{Kind, kind_of};

// So few that the comparison, which goes one level deeper for each bracket, stays within 1 MiB of stack.
const FEW: usize = 6144;

// The words from one place to another, or one more than FEW where they are more.
fn words_between(start: usize, end: usize) -> usize
    ensures { result ≤ 6145 }
{
    end.saturating_sub(start).min(FEW + 1)
}

// The words of the value of an unknown, of which the last ends at `end`.
fn words_of_value(starts: &[u16], i: usize, end: usize) -> usize
    ensures { result ≤ 6145 }
{
    match starts.get(i) {
        Some(start) => {
            let next = starts.get(i + 1).map_or(end, |next| usize::from(*next));
            words_between(usize::from(*start), next)
        }
        None => 0,
    }
}

// What stands for a word with its value put in.
fn words_for(word: u16, starts: &[u16], end: usize) -> usize
    ensures { result ≤ 6145 }
{
    match kind_of(word) {
        Kind::Unknown(i) => words_of_value(starts, usize::from(i), end),
        Kind::Empty | Kind::Member | Kind::Functor(_) | Kind::Nothing => 1,
    }
}

// Has a question, with the values that start at `starts` and end at `end` put in, few words?
pub fn spreads_little(question: &[u16], starts: &[u16], end: usize) -> bool {
    let mut total: usize = 0;
    for word in question {
        total += words_for(*word, starts, end);
        if FEW < total {
            return false;
        }
    }
    true
}
