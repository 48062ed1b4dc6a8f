// The search from its root on: the root's row is written, its answer is noted, and turns are taken until the run ends.
//
// In specs/, `Root` says what the row holds, and when it is the first node of a run.
#![tactic(auto)]

ghost use Rattle.std.specs.Prelude.{None};
ghost use Rattle.search_turn.specs.Running.{Given, Running, Ends};
ghost use Rattle.search_loop.specs.Root.{Rooted};

pub mod row;

use answer_record::note;
use results::ran::{Ending, Record};
use room::layout::HEADER;
use search::ends::End;
use search::limits::Limits;
use search_turn::turn::take_turn;
use std::ops::ControlFlow;
use visits::node::Place;

// The search from its first row on, turn by turn.
fn search_on(
    arities: &[u8],
    limits: Limits,
    answers: &mut [u16],
    room: &mut [u16],
    first: Record,
) -> Ending
    requires { (to : Given) × Running arities.now limits room.old answers.old 0 None first to }
    ensures { (to : Given) → Running arities.now limits room.old answers.old 0 None first to → Ends to result answers.new }
{
    let mut place = Place {
        level: 0,
        counts: first,
    };
    let mut shown = None;
    // Kept: a turn says whether there is another.
    loop {
        let taken = take_turn(arities, limits, answers, room, place, shown);
        match taken.turn {
            ControlFlow::Continue(next) => {
                place = next;
                shown = taken.shown;
            }
            ControlFlow::Break(ending) => return ending,
        }
    }
}

// The root is open: its answer is noted, and the search goes on from its row.
pub fn enter_root(arities: &[u8], limits: Limits, answers: &mut [u16], room: &mut [u16]) -> Ending
    requires { (to : Given) × Rooted arities.now limits room.old answers.old to }
    ensures { (to : Given) → Rooted arities.now limits room.old answers.old to → Ends to result answers.new }
{
    let one = Record {
        visited: 1,
        answers: 0,
        words: 0,
    };
    let end = limits.size + HEADER;
    match note(&room[..end], answers, one) {
        Some(noted) => search_on(arities, limits, answers, room, noted),
        None => Ending {
            end: End::Space,
            counts: one,
        },
    }
}
