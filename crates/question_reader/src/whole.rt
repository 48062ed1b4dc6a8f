// A question's text: its header, and two terms for each equation, with nothing after.
ghost use Rattle.std.specs.Prelude.{◌≡◌, ◌≤◌, length, IfOk};
ghost use Rattle.terms.specs.Bounds.{edition_one, FUNCTORS, SYMBOLS};
ghost use Rattle.numerals.specs.Bytes.{of_met};
ghost use Rattle.question_reader.specs.Questions.{side, equation, equations, question, of_question, Counted};

use beginnings::declared::{Arities, Declared};
use header_reader::header::read_header;
use items::item::Words;
use numerals::bytes::meet;
use results::read::Counts;
use term_reader::term::read_term;
use terms::refusal::{Cause, Refusal};

// One side of an equation, which is its key, a term, and LF: where reading goes on after it.
fn read_side(
    text: &[u8],
    at: usize,
    key: &[u8],
    declared: &Declared<'_>,
    words: &mut Words,
) -> Result<usize, Refusal>
    requires { at ≤ length text.now }
    ensures { of_met words.new.items result ≡ side edition_one text.now declared.now.unknowns declared.now.arities.now.items key.now at words.old.items }
{
    let p = meet(text, at, key)?;
    let end = read_term(text, p, declared, 0, words)?;
    meet(text, end, b"\n")
}

// An equation: its left side and its right side.
fn read_equation(
    text: &[u8],
    at: usize,
    declared: &Declared<'_>,
    words: &mut Words,
) -> Result<usize, Refusal>
    requires { at ≤ length text.now }
    ensures { of_met words.new.items result ≡ equation edition_one text.now declared.now.unknowns declared.now.arities.now.items at words.old.items }
{
    let right = read_side(text, at, &text::LEFT, declared, words)?;
    read_side(text, right, &text::RIGHT, declared, words)
}

// So many equations, and the text's end.
fn read_equations(
    text: &[u8],
    at: usize,
    count: usize,
    declared: &Declared<'_>,
    words: &mut Words,
) -> Result<usize, Refusal>
    requires { at ≤ length text.now }
    ensures { of_met words.new.items result ≡ equations edition_one text.now declared.now.unknowns declared.now.arities.now.items count at words.old.items }
{
    let mut p = at;
    for _ in 0..count {
        let end = read_equation(text, p, declared, words)?;
        p = end;
    }
    if p == text.len() {
        return Ok(p);
    }
    Err(Refusal {
        cause: Cause::Byte,
        place: p,
    })
}

// The whole text, with its arities and its words.
pub fn read_whole(text: &[u8], arities: &mut Arities, words: &mut Words) -> Result<Counts, Refusal>
    ensures exact { of_question (length text.now) result arities.new.items words.new.items ≡ question edition_one text.now }
    ensures counted { Counted result arities.new.items words.new.items }
    ensures within { IfOk result (λ c. (c.functors ≤ FUNCTORS) × (c.words ≤ SYMBOLS)) }
{
    let head = read_header(text, arities)?;
    let declared = Declared {
        unknowns: head.unknowns,
        arities: &*arities,
    };
    words.clear();
    read_equations(text, head.end, head.equations, &declared, words)?;
    Ok(Counts {
        unknowns: head.unknowns,
        functors: arities.len(),
        equations: head.equations,
        words: words.len(),
    })
}
