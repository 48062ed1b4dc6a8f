// Terms of a text: a term is read by its members and arguments, each of which is a term again.
// The stack holds two calls for each open bracket, and at most 200 are open: members and arguments side by side are read by a loop.
ghost use Rattle.std.specs.Prelude.{◌≡◌, ℕ, ◌+◌, ◌-◌, ◌*◌, ◌≤◌, ◌<◌, length};
ghost use Rattle.terms.specs.Bounds.{edition_one};
ghost use Rattle.numerals.specs.Bytes.{of_met};
ghost use Rattle.term_reader.specs.Terms.{term, list};

use beginnings::beginning::begin;
use beginnings::declared::Declared;
use items::item::{Item, Next, Words, pass};
use terms::refusal::Refusal;

// The term at `at`, with `depth` brackets open: where reading goes on after it.
#[cycle(read_list_read_term)]
pub fn read_term(
    text: &[u8],
    at: usize,
    declared: &Declared<'_>,
    depth: usize,
    words: &mut Words,
) -> Result<usize, Refusal>
    requires { at ≤ length text.now }
    ensures { (fuel : ℕ) → 2 * (length text.now - at) < fuel → of_met words.new.items result ≡ term edition_one text.now declared.now.unknowns declared.now.arities.now.items fuel depth at words.old.items }
{
    match begin(text, at, declared, depth, words)? {
        Next::Due(item, p) => read_list(text, p, declared, depth + 1, item, words),
        Next::Done(p) => Ok(p),
    }
}

// The item at `at`, and what follows it up to the closing bracket.
// Kept: the loop ends where an item says so and counts no index, and a call in its place would take the stack of a long set's members.
#[cycle(read_list_read_term)]
fn read_list(
    text: &[u8],
    at: usize,
    declared: &Declared<'_>,
    depth: usize,
    first: Item,
    words: &mut Words,
) -> Result<usize, Refusal>
    requires { at ≤ length text.now }
    ensures { (fuel : ℕ) → 2 * (length text.now - at) + 1 < fuel → of_met words.new.items result ≡ list edition_one text.now declared.now.unknowns declared.now.arities.now.items fuel depth first at words.old.items }
{
    let mut item = first;
    let mut p = at;
    loop {
        let end = read_term(text, p, declared, depth, words)?;
        match pass(text, end, item, words)? {
            Next::Due(i, q) => {
                item = i;
                p = q;
            }
            Next::Done(q) => {
                return Ok(q);
            }
        }
    }
}
