// How many picks a member of a split has.
ghost use Rattle.std.specs.Prelude.{◌≡◌, ◌<◌};
ghost use Rattle.search_laws.specs.Picking.{radix};
ghost use Rattle.pick_loop.specs.PicksInScratch.{left_open, right_open};

use search::steps::Tails;

// How many picks a t has: the m u's, and the right tail if it is an unknown.
// Kept: beside `picks_of_u`, for another tail; as one function each caller would say which tail is open by a match of its own.
pub fn picks_of_t(tails: Tails, m: usize) -> usize
    requires { m < 65535 }
    ensures { result ≡ radix (right_open tails) m }
{
    match tails {
        Tails::Neither | Tails::Left => m,
        Tails::Right | Tails::Different | Tails::Same => m + 1,
    }
}

// How many picks a u has: the n t's, and the left tail if it is an unknown.
// Kept: as `picks_of_t`.
pub fn picks_of_u(tails: Tails, n: usize) -> usize
    requires { n < 65535 }
    ensures { result ≡ radix (left_open tails) n }
{
    match tails {
        Tails::Neither | Tails::Right => n,
        Tails::Left | Tails::Different | Tails::Same => n + 1,
    }
}
