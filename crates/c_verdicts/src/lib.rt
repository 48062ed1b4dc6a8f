// What the answer of a comparison is told as to C: 1 or 0, or the refusal; by the definitions of `c_replies`.
#![tactic(auto)]

ghost use Rattle.std.specs.Prelude.{[], ◌∷◌};
ghost use Rattle.c_replies.specs.Replies.{Replied, of_verdict};

use c_replies::tell_refusal;
use terms::refusal::Refusal;

// Whether two terms are equal, or values solve a question.
pub fn tell_verdict(verdict: Result<bool, Refusal>, told: &mut u32, place: &mut usize) -> u32
    ensures { Replied (of_verdict verdict) result (told.old ∷ []) (told.new ∷ []) place.old place.new }
{
    match verdict {
        Ok(yes) => {
            *told = u32::from(yes);
            0
        }
        Err(refusal) => tell_refusal(refusal, place),
    }
}
