// The header of a question's text: edition, unknowns, arities, equations.
ghost use Rattle.std.specs.Prelude.{◌≡◌, ◌≤◌, [], length, OnOk};
ghost use Rattle.terms.specs.Bounds.{edition_one, FUNCTORS, ARITY};
ghost use Rattle.numerals.specs.Bytes.{of_met};
ghost use Rattle.numerals.specs.Numbers.{of_numeral};
ghost use Rattle.header_reader.specs.HeaderText.{line, arity_list, arity_line, header, of_heading};

use beginnings::declared::Arities;
use numerals::bytes;
use numerals::bytes::{meet, peek};
use numerals::number::{Numeral, read_between};
use terms::bounds;
use terms::refusal::{Cause, Refusal};

// Kept: a `const` item's value can't call `usize::from`, and in a `let` of `read_numbers` it would be no plainer.
const ARITY: usize = bounds::ARITY as usize;

// A line: its key, a number between two limits, and LF.
fn read_line(
    text: &[u8],
    at: usize,
    key: &[u8],
    low: usize,
    high: usize,
) -> Result<Numeral, Refusal>
    ensures { of_numeral result ≡ line key.now low high text.now at }
{
    let p = meet(text, at, key)?;
    let read = read_between(text, p, low, high)?;
    let end = meet(text, read.end, b"\n")?;
    Ok(Numeral {
        value: read.value,
        end,
    })
}

// The arities, of which one is due at `at`: where reading goes on after them.
fn read_numbers(text: &[u8], at: usize, arities: &mut Arities) -> Result<usize, Refusal>
    requires { arities.old.items ≡ [] }
    ensures exact { of_met arities.new.items result ≡ arity_list FUNCTORS ARITY text.now at [] }
    ensures within { OnOk result (length arities.new.items ≤ FUNCTORS) }
{
    let mut p = at;
    for _ in 0..bounds::FUNCTORS {
        let read = read_between(text, p, 0, ARITY)?;
        // Kept: `read_between` shows that the value fits, and `u8::try_from` would bring an error that can't come.
        arities.push(read.value as u8);
        match peek(text, read.end) {
            Some(bytes::LINE_FEED) => {
                return Ok(read.end + 1);
            }
            Some(bytes::COMMA) => {
                p = read.end + 1;
            }
            _ => {
                return Err(Refusal {
                    cause: Cause::Byte,
                    place: read.end,
                });
            }
        }
    }
    Err(Refusal {
        cause: Cause::Limit,
        place: p,
    })
}

// The line of the arities: a number is due after its key unless an LF follows at once.
// It stands by itself: within its callers too few registers are left for its loop, and each turn goes to memory for the count and the text's length.
#[inline(never)]
fn read_arities(text: &[u8], at: usize, arities: &mut Arities) -> Result<usize, Refusal>
    ensures exact { of_met arities.new.items result ≡ arity_line edition_one text.now at }
    ensures within { OnOk result (length arities.new.items ≤ FUNCTORS) }
{
    let p = meet(text, at, &text::ARITIES)?;
    arities.clear();
    if peek(text, p) == Some(bytes::LINE_FEED) {
        return Ok(p + 1);
    }
    read_numbers(text, p, arities)
}

// What the header says beside the arities, and where reading goes on after it.
// Kept: other structs hold three numbers, too, but no header of a text, so one struct for all would be no plainer.
#[derive(Clone, Copy)]
pub struct Heading {
    pub unknowns: usize,
    pub equations: usize,
    pub end: usize,
}

// The four lines, with the arities in `arities`.
pub fn read_header(text: &[u8], arities: &mut Arities) -> Result<Heading, Refusal>
    ensures exact { of_heading result arities.new.items ≡ header edition_one text.now }
    ensures within { OnOk result (length arities.new.items ≤ FUNCTORS) }
{
    let edition = read_line(text, 0, &text::EDITION, 1, 1)?;
    let unknowns = read_line(text, edition.end, &text::UNKNOWNS, 0, bounds::UNKNOWNS)?;
    let functors = read_arities(text, unknowns.end, arities)?;
    let equations = read_line(text, functors, &text::EQUATIONS, 0, bounds::EQUATIONS)?;
    Ok(Heading {
        unknowns: unknowns.value,
        equations: equations.value,
        end: equations.end,
    })
}
