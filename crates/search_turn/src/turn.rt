// One turn of the search: the next child of the deepest row is looked for, and opened. A split that was opened stands open in scratch until another one is, and
// its next child only advances the picks.
ghost use Rattle.std.specs.Prelude.{◌≡◌, cond};
ghost use Rattle.search_turn.specs.Running.{Given, Running, Turned};

use children::look;
use only_child::next::Next;
use results::ran::Ending;
use room::layout::HEADER;
use search::limits::Limits;
use std::ops::ControlFlow;
use visits::node::{Place, back, due, meet, most_passed};
use visits::number::number_in;

// A turn that was taken, and the level of the row whose split stands open in scratch after it, if one does.
#[derive(Clone, Copy)]
pub struct Taken {
    pub turn: ControlFlow<Ending, Place>,
    pub shown: Option<usize>,
}

// Which split stands open after a look: the one here where the row's was opened, else the one that stood open before.
fn shown_then(opens: bool, here: Option<usize>, shown: Option<usize>) -> Option<usize>
    ensures { result ≡ cond opens here shown }
{
    if opens {
        return here;
    }
    shown
}

// One turn, from the deepest row. A split whose children are at their end stands open no more.
pub fn take_turn(
    arities: &[u8],
    limits: Limits,
    answers: &mut [u16],
    room: &mut [u16],
    place: Place,
    shown: Option<usize>,
) -> Taken
    requires { (to : Given) × Running arities.now limits room.old answers.old place.level shown place.counts to }
    ensures { (to : Given) → Running arities.now limits room.old answers.old place.level shown place.counts to → Turned arities.now limits room.new answers.new place.level place.counts to result.turn result.shown }
{
    let size = limits.size;
    let stride = size + HEADER;
    let at = place.level * stride;
    let scratch = (limits.depth + 1) * stride;
    let low = at + 5;
    let high = at + 7;
    let number = number_in(&room[low..high]);
    let most = most_passed(limits, place);
    let looked = look(
        arities,
        room,
        at,
        place.level,
        number,
        size,
        scratch,
        most,
        shown,
    );
    match looked.next {
        Next::Spent(k) => Taken {
            turn: back(place.passing(k)),
            shown: shown_then(looked.opens, None, shown),
        },
        Next::Due(k) => Taken {
            turn: ControlFlow::Break(due(limits, place.passing(k).counts)),
            shown,
        },
        Next::Node(k, node) => Taken {
            turn: meet(limits, answers, room, place.passing(k), number + k, node),
            shown: shown_then(looked.opens, Some(place.level), shown),
        },
    }
}
