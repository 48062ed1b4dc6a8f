// What the program `solve` prints, and the printing of it: a list's text, or the two lines of a refusal.
//
// In specs/, `Solved` says what is printed for any input; in proofs/, `Enough` shows that the sizes lent hold what every good question needs.
#![tactic(auto)]

ghost use Rattle.std.specs.Prelude.{◌≡◌, ◌≤◌, length};
ghost use Rattle.printing.specs.Solved.{OUTPUT, Prints, refused, printed, of_list};

use lines::line::put_number_line;
use list_writer::list::write_answers;
use results::ran::Ending;
use search::ends::number_of_end;
use terms::refusal::{Refusal, number_of};

// More bytes than the text of any list of 4,096 words: `list_length` of text/specs/ListSizes.antt.
pub const OUTPUT: usize = 65536;

// The two lines of a refusal.
// Kept: `as u64`, since std has no `From` of `usize`, and `try_from` would add a refusal that never comes.
pub fn print_refusal(refusal: Refusal, output: &mut [u8]) -> usize
    requires { 64 ≤ length output.old }
    ensures { Prints (printed (refused refusal)) result output.old output.new }
{
    let cause = refusal.cause;
    let place = refusal.place;
    let second = put_number_line(output, 0, b"refused=", u64::from(number_of(cause)));
    put_number_line(output, second, b"place=", place as u64)
}

// The text of a run's answers, or the lines of its writer's refusal.
// Kept: `as usize`, since a `usize` holds every `u64`, and `try_from` would add a refusal that never comes.
pub fn print_list(arities: &[u8], ending: Ending, words: &[u16], output: &mut [u8]) -> usize
    requires { length output.old ≡ OUTPUT }
    ensures { Prints (printed (of_list arities.now ending words.now)) result output.old output.new }
{
    let end = ending.end;
    let counts = ending.counts;
    let number = u64::from(number_of_end(end));
    let count = counts.answers as usize;
    match write_answers(arities, number, counts.visited, count, words, output) {
        Ok(length) => length,
        Err(refusal) => print_refusal(refusal, output),
    }
}
