// A run: limits, question and room are tested, the root's row is written, and the search goes on from it.
//
// In specs/, `Result` says what a run gives for any input; `Start` is where the search starts.
#![tactic(auto)]

ghost use Rattle.std.specs.Prelude.{length, Some};
ghost use Rattle.results.specs.Result.{RunGives, told, told_within};
ghost use Rattle.search_turn.specs.Running.{Ends};
ghost use Rattle.solver.specs.Start.{Asking, Bounded, whole_run};

use lent_words::check_question;
use results::ran::{Ending, Record};
use room::layout::{HEADER, SPARE_ROWS};
use search::ends::End;
use search::limits::Limits;
use search_loop::enter_root;
use search_loop::row::write_root;
use terms::refusal::{Cause, Refusal};

// The run of a good question in a room that is large enough.
fn start(
    unknowns: usize,
    arities: &[u8],
    words: &[u16],
    limits: Limits,
    answers: &mut [u16],
    room: &mut [u16],
) -> Ending
    requires { Asking unknowns arities.now words.now limits room.old }
    ensures { Ends (whole_run unknowns arities.now words.now limits answers.old) result answers.new }
{
    let counts = Record {
        visited: 0,
        answers: 0,
        words: 0,
    };
    if limits.steps == 0 {
        return Ending {
            end: End::Steps,
            counts,
        };
    }
    if limits.size < words.len() {
        return Ending {
            end: End::Size,
            counts,
        };
    }
    write_root(room, words, unknowns);
    enter_root(arities, limits, answers, room)
}

// The question is tested, then the room.
fn run_within(
    unknowns: usize,
    arities: &[u8],
    equations: usize,
    words: &[u16],
    limits: Limits,
    answers: &mut [u16],
    room: &mut [u16],
) -> Result<Ending, Refusal>
    requires { Bounded limits }
    ensures { RunGives (told_within unknowns arities.now equations words.now (length answers.old) (length room.old) (Some limits)) result answers.old answers.new room.old room.new }
{
    match check_question(unknowns, arities, equations, words) {
        Err(refusal) => Err(refusal),
        Ok(()) => {
            let needed = (limits.depth + SPARE_ROWS) * (limits.size + HEADER);
            if room.len() < needed {
                return Err(Refusal {
                    cause: Cause::Buffer,
                    place: needed,
                });
            }
            Ok(start(
                unknowns,
                arities,
                words,
                limits,
                answers,
                &mut room[..needed],
            ))
        }
    }
}

// A run: the limits are tested, then the question, then the room. Its end and numbers come back, and the answer words begin with the answers listed; or a
// refusal, and every lent word is as it was.
// Kept: the parameters are what docs/SPECIFICATION.md (8.6) lists as lent, one by one.
pub fn run(
    unknowns: usize,
    arities: &[u8],
    equations: usize,
    words: &[u16],
    steps: u64,
    depth: usize,
    size: usize,
    answers: &mut [u16],
    room: &mut [u16],
) -> Result<Ending, Refusal>
    ensures { RunGives (told unknowns arities.now equations words.now steps depth size (length answers.old) (length room.old)) result answers.old answers.new room.old room.new }
{
    let limits = Limits::new(steps, depth, size).ok_or(Refusal {
        cause: Cause::Limit,
        place: 0,
    })?;
    run_within(unknowns, arities, equations, words, limits, answers, room)
}
