// From a question's text to the text of its answers: what SPECIFICATION 10.1 says of the program `solve`, over slices. The program itself only moves bytes.
//
// `Solved` of printing's specs/ says what is printed for any input; `Enough` of its proofs/ shows that the sizes here hold what every good question needs.
#![tactic(auto)]

ghost use Rattle.std.specs.Prelude.{◌≡◌, length};
ghost use Rattle.printing.specs.Solved.{OUTPUT, Prints, printed, of_words, solved};

use mensorique::{read_question, run};
use printing::{OUTPUT, print_list, print_refusal};
use terms::bounds;

const STEPS: u64 = 100000;

const DEPTH: usize = 96;

const SIZE: usize = 256;

const ANSWERS: usize = 4096;

// (DEPTH + SPARE_ROWS) * (SIZE + HEADER), with the constants of `room`.
const ROOM: usize = 27456;

// The run of a question in words.
fn solve_words(
    unknowns: usize,
    arities: &[u8],
    equations: usize,
    words: &[u16],
    output: &mut [u8],
) -> usize
    requires { length output.old ≡ OUTPUT }
    ensures { Prints (printed (of_words unknowns arities.now equations words.now)) result output.old output.new }
{
    let mut answers = [0u16; ANSWERS];
    let mut room = [0u16; ROOM];
    match run(
        unknowns,
        arities,
        equations,
        words,
        STEPS,
        DEPTH,
        SIZE,
        &mut answers,
        &mut room,
    ) {
        Ok(ending) => {
            let counts = ending.counts;
            let used = counts.words;
            print_list(arities, ending, &answers[..used], output)
        }
        Err(refusal) => print_refusal(refusal, output),
    }
}

// What is printed for a text goes to the start of the output, which is as it was after that; its length comes back.
pub fn solve_text(text: &[u8], output: &mut [u8; OUTPUT]) -> usize
    ensures { Prints (solved text.now) result output.old output.new }
{
    let mut arities = [0u8; bounds::FUNCTORS];
    let mut words = [0u16; bounds::SYMBOLS];
    match read_question(text, &mut arities, &mut words) {
        Ok(counts) => solve_words(
            counts.unknowns,
            &arities[..counts.functors],
            counts.equations,
            &words[..counts.words],
            output,
        ),
        Err(refusal) => print_refusal(refusal, output),
    }
}
