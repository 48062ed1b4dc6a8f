// The only child of a state whose first equation leaves no choice.
// Kept: places, sizes and the next unknown's number are passed apart. As records they cost the run a quarter of its speed (docs/DECISIONS.md).
ghost use Rattle.plain_steps.specs.OnlyStep.{StepAt, Taken};
ghost use Rattle.plain_steps.specs.Plain.{of_plain};

use crate::first_equation::{decompose, postpone};
use crate::plain::Plain;
use binding::bind::finish;
use binding::keep::keep;
use room::layout::HEADER;
use rows::first::Subject;
use rows::parts::{Made, Rest};
use terms::kind::terms_after;

// Takes the step that the first equation of the row at `from` calls for; the equation's words end at the place `end` of the row's body, and its right
// side begins at `right`.
pub fn take_step(
    arities: &[u8],
    room: &mut [u16],
    from: usize,
    to: usize,
    scratch: usize,
    size: usize,
    right: usize,
    end: usize,
    next: usize,
    rest: Rest,
    subject: Subject,
    step: Plain,
) -> Made
    requires { StepAt arities.now room.old from to scratch size right end next rest subject (of_plain step) }
    ensures { Taken arities.now room.old from to scratch size right end next rest subject (of_plain step) result room.new }
{
    match step {
        Plain::Drop => Made::from(keep(room, rest, from, 0, to, 0, size, next)),
        Plain::Bind(_) => {
            let by = subject.by;
            let m = subject.m;
            Made::from(finish(arities, room, rest, subject.x, by, m, to, 0, size, next))
        }
        Plain::Postpone(_) => Made::from(postpone(room, rest, subject, scratch, to, size, next)),
        Plain::Decompose => {
            let body = from + HEADER;
            let k = usize::from(terms_after(arities, room[body]));
            let left = body + 1;
            let other = body + right + 1;
            Made::from(decompose(
                arities,
                room,
                rest,
                k,
                left,
                right - 1,
                other,
                end - right - 1,
                to,
                size,
                next,
            ))
        }
        Plain::Dead => Made::Dead,
    }
}
