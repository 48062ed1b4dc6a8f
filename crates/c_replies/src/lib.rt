// What an answer is told as to C: which status and which out numbers it gives. A granted call has status 0, its out numbers are written, and the place is
// left alone; a refused one has the refusal's number for status, and the place alone is written. `c_verdicts` tells the answers of comparisons, and
// `mensorique_c` has the calls.
//
// In specs/, `Replies` has the definitions.
#![tactic(auto)]

ghost use Rattle.std.specs.Prelude.{◌≡◌, [], ◌∷◌};
ghost use Rattle.terms.specs.Refusal.{number};
ghost use Rattle.c_replies.specs.Replies.{Replied, of_question, of_written, of_ran};

use results::ran::Ending;
use results::read::Counts;
use search::ends::number_of_end;
use terms::refusal::{Refusal, number_of};

// A refusal's number, with its place written.
pub fn tell_refusal(refusal: Refusal, place: &mut usize) -> u32
    ensures status { result ≡ number refusal.cause }
    ensures place { place.new ≡ refusal.place }
{
    let cause = refusal.cause;
    *place = refusal.place;
    number_of(cause)
}

pub fn tell_question(
    question: Result<Counts, Refusal>,
    unknowns: &mut usize,
    functors: &mut usize,
    equations: &mut usize,
    used: &mut usize,
    place: &mut usize,
) -> u32
    ensures { Replied (of_question question) result
        (unknowns.old ∷ functors.old ∷ equations.old ∷ used.old ∷ []) (unknowns.new ∷ functors.new ∷ equations.new ∷ used.new ∷ [])
        place.old place.new }
{
    match question {
        Ok(counts) => {
            *unknowns = counts.unknowns;
            *functors = counts.functors;
            *equations = counts.equations;
            *used = counts.words;
            0
        }
        Err(refusal) => tell_refusal(refusal, place),
    }
}

pub fn tell_written(written: Result<usize, Refusal>, length: &mut usize, place: &mut usize) -> u32
    ensures { Replied (of_written written) result (length.old ∷ []) (length.new ∷ []) place.old place.new }
{
    match written {
        Ok(n) => {
            *length = n;
            0
        }
        Err(refusal) => tell_refusal(refusal, place),
    }
}

pub fn tell_ran(
    ran: Result<Ending, Refusal>,
    end: &mut u32,
    visited: &mut u64,
    count: &mut u64,
    used: &mut usize,
    place: &mut usize,
) -> u32
    ensures { Replied (of_ran ran) result
        (end.old ∷ visited.old ∷ count.old ∷ used.old ∷ []) (end.new ∷ visited.new ∷ count.new ∷ used.new ∷ [])
        place.old place.new }
{
    match ran {
        Ok(ending) => {
            let how = ending.end;
            let counts = ending.counts;
            *end = number_of_end(how);
            *visited = counts.visited;
            *count = counts.answers;
            *used = counts.words;
            0
        }
        Err(refusal) => tell_refusal(refusal, place),
    }
}
