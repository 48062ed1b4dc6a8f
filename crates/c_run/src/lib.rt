// A run as C calls it: the entry is called, and its answer told. `mensorique_c` has the function that is exported.
//
// In specs/, `RunFromC` says what the call gives by the entry's own definition of what was lent: the reply, and each buffer as the entry leaves it.
#![tactic(auto)]

ghost use Rattle.std.specs.Prelude.{[], ◌∷◌, length as len};
ghost use Rattle.results.specs.Result.{told};
ghost use Rattle.c_run.specs.RunFromC.{RunReplied};

use c_replies::tell_ran;

// Kept: the parameters are those of the call that C makes.
pub fn call_run(
    unknowns: usize,
    arities: &[u8],
    equations: usize,
    words: &[u16],
    steps: u64,
    depth: usize,
    size: usize,
    answers: &mut [u16],
    room: &mut [u16],
    end: &mut u32,
    visited: &mut u64,
    count: &mut u64,
    used: &mut usize,
    place: &mut usize,
) -> u32
    ensures { RunReplied (told unknowns arities.now equations words.now steps depth size (len answers.old) (len room.old)) result
        (end.old ∷ visited.old ∷ count.old ∷ used.old ∷ []) (end.new ∷ visited.new ∷ count.new ∷ used.new ∷ [])
        place.old place.new answers.old answers.new room.old room.new }
{
    let ran = mensorique::run(
        unknowns, arities, equations, words, steps, depth, size, answers, room,
    );
    tell_ran(ran, end, visited, count, used, place)
}
