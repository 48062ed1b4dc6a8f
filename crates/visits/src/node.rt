// What becomes of a node that is due: it is visited, counted and its answer noted, or the run ends.
ghost use Rattle.std.specs.Prelude.{◌≡◌, ◌+◌, ◌≤◌, ◌<◌, ◌^◌, length};
ghost use Rattle.counters.specs.Counted.{counted};
ghost use Rattle.rows.specs.declared.parts.Reached.TheVariants as kinds;
ghost use Rattle.visits.specs.DueNode.{OpenParts, most_of, back_to, due_ending, node_turn, node_room, node_answers};

use crate::number::set_number;
use answer_record::note;
use counters::with_nodes;
use results::ran::{Ending, Record};
use room::layout::HEADER;
use rows::parts::Reached;
use search::ends::End;
use search::limits::Limits;
use std::ops::ControlFlow;

// Where the search goes on: from the row of this level, with so much counted.
#[derive(Clone, Copy)]
pub struct Place {
    pub level: usize,
    pub counts: Record,
}

impl Place {
    // The same row, where so many dead ends below it were passed: they are counted.
    pub fn passing(self, dead_ends: usize) -> Place
        requires { self.counts.visited + dead_ends < 2 ^ 64 }
        ensures level { result.level ≡ self.level }
        ensures counts { result.counts ≡ counted self.counts dead_ends }
    {
        Place {
            // Kept: `as`, for there is no `From` between `usize` and `u64`, and `try_from` would bring an error that can't come.
            counts: with_nodes(self.counts, dead_ends as u64),
            ..self
        }
    }
}

// How many dead ends may be passed: none below the lent depth, and no more than there are steps left.
pub fn most_passed(limits: Limits, place: Place) -> usize
    requires { place.counts.visited ≤ limits.steps }
    ensures { result ≡ most_of limits place.level place.counts }
{
    if limits.depth <= place.level {
        return 0;
    }
    // Kept: `as`, for there is no `From` between `usize` and `u64`, and `try_from` would bring an error that can't come.
    (limits.steps - place.counts.visited) as usize
}

// No child is left: the row above goes on, or the run is done.
pub fn back(place: Place) -> ControlFlow<Ending, Place>
    ensures { result ≡ back_to place.level place.counts }
{
    if place.level == 0 {
        return ControlFlow::Break(Ending {
            end: End::Done,
            counts: place.counts,
        });
    }
    ControlFlow::Continue(Place {
        level: place.level - 1,
        ..place
    })
}

// A child is due that may not be opened.
pub fn due(limits: Limits, counts: Record) -> Ending
    ensures { result ≡ due_ending limits counts }
{
    if limits.steps <= counts.visited {
        return Ending {
            end: End::Steps,
            counts,
        };
    }
    Ending {
        end: End::Depth,
        counts,
    }
}

// The child of the number is open: it is counted, its answer is noted, and the next child is the one after it.
fn enter(
    limits: Limits,
    answers: &mut [u16],
    room: &mut [u16],
    place: Place,
    number: usize,
) -> ControlFlow<Ending, Place>
    requires { OpenParts limits place.level room.old answers.old place.counts number }
    ensures value { result ≡ node_turn limits place.level room.old (length answers.old) place.counts kinds.Live }
    ensures room_after { room.new ≡ node_room limits place.level room.old number kinds.Live }
    ensures answers_after { answers.new ≡ node_answers limits place.level room.old answers.old place.counts kinds.Live }
{
    let stride = limits.size + HEADER;
    let at = place.level * stride;
    set_number(room, at, number + 1);
    let child = at + stride;
    let end = child + stride;
    let more = with_nodes(place.counts, 1);
    match note(&room[child..end], answers, more) {
        Some(counts) => ControlFlow::Continue(Place {
            level: place.level + 1,
            counts,
        }),
        None => ControlFlow::Break(Ending {
            end: End::Space,
            counts: more,
        }),
    }
}

// What becomes of the node that was met, the child of the number.
pub fn meet(
    limits: Limits,
    answers: &mut [u16],
    room: &mut [u16],
    place: Place,
    number: usize,
    node: Reached,
) -> ControlFlow<Ending, Place>
    requires { node ≡ kinds.Live → OpenParts limits place.level room.old answers.old place.counts number }
    ensures value { result ≡ node_turn limits place.level room.old (length answers.old) place.counts node }
    ensures room_after { room.new ≡ node_room limits place.level room.old number node }
    ensures answers_after { answers.new ≡ node_answers limits place.level room.old answers.old place.counts node }
{
    match node {
        Reached::Live => enter(limits, answers, room, place, number),
        Reached::Names => ControlFlow::Break(Ending {
            end: End::Names,
            counts: place.counts,
        }),
        Reached::Large => ControlFlow::Break(Ending {
            end: End::Size,
            counts: place.counts,
        }),
    }
}
