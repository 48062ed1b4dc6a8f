// Items of a list between brackets: what an item may be, and what follows one.
// Words go to a vector with room for as many as a question may have, which lies in the value itself.
ghost use Rattle.std.specs.Prelude.{◌≡◌, List, ℕ, ◌<◌, length};
ghost use Rattle.terms.specs.Bounds.{edition_one};
ghost use Rattle.numerals.specs.Bytes.{of_byte};
ghost use Rattle.items.specs.Items.{begins, due_member, due_tail, close_empty, after, after_member, after_argument, after_tail, of_next};

use arrayvec::ArrayVec;
use numerals::bytes;
use numerals::bytes::peek;
use terms::bounds;
use terms::bounds::SYMBOLS;
use terms::refusal::{Cause, Refusal};

// An item of a list: a member, the tail after a bar, or an argument, with the number of arguments due after it.
#[derive(Clone, Copy)]
pub enum Item {
    Member,
    Tail,
    Argument(usize),
}

// What comes next: an item, which is a term at a place; or nothing, as the term has ended there.
#[derive(Clone, Copy)]
pub enum Next {
    Due(Item, usize),
    Done(usize),
}

// The words of a question, as far as they were read.
pub type Words = ArrayVec<u16, SYMBOLS>;

// Does a term begin with this byte?
fn begins_term(b: Option<u8>) -> bool
    ensures { result ≡ begins (of_byte b) }
{
    matches!(b, Some(bytes::UNKNOWN | bytes::FUNCTOR | bytes::SET_OPENS))
}

// A member is due at `at`: the member adding counts there.
pub fn open_member(text: &[u8], at: usize, words: &mut Words) -> Result<Next, Refusal>
    ensures { of_next result words.new.items ≡ due_member edition_one text.now at words.old.items }
{
    if !begins_term(peek(text, at)) {
        return Err(Refusal {
            cause: Cause::Byte,
            place: at,
        });
    }
    if words.is_full() {
        return Err(Refusal {
            cause: Cause::Limit,
            place: at,
        });
    }
    words.push(bounds::MEMBER);
    Ok(Next::Due(Item::Member, at))
}

// The closing bracket at `at` ends the empty set.
pub fn end_empty(text: &[u8], at: usize, words: &mut Words) -> Result<Next, Refusal>
    requires { at < length text.now }
    ensures { of_next result words.new.items ≡ close_empty edition_one at words.old.items }
{
    if words.is_full() {
        return Err(Refusal {
            cause: Cause::Limit,
            place: at,
        });
    }
    words.push(bounds::EMPTY);
    Ok(Next::Done(at + 1))
}

// The tail is due at `at`.
fn open_tail(text: &[u8], at: usize) -> Result<Next, Refusal>
    ensures { (ws : List ℕ) → of_next result ws ≡ due_tail text.now at ws }
{
    if peek(text, at) == Some(bytes::SET_OPENS) {
        return Err(Refusal {
            cause: Cause::Byte,
            place: at,
        });
    }
    Ok(Next::Due(Item::Tail, at))
}

// A member has ended at `at`.
fn pass_member(text: &[u8], at: usize, words: &mut Words) -> Result<Next, Refusal>
    ensures { of_next result words.new.items ≡ after_member edition_one text.now at words.old.items }
{
    match peek(text, at) {
        Some(bytes::COMMA) => open_member(text, at + 1, words),
        Some(bytes::BAR) => open_tail(text, at + 1),
        Some(bytes::SET_CLOSES) => end_empty(text, at, words),
        _ => Err(Refusal {
            cause: Cause::Byte,
            place: at,
        }),
    }
}

// A tail has ended at `at`.
fn pass_tail(text: &[u8], at: usize) -> Result<Next, Refusal>
    ensures { (ws : List ℕ) → of_next result ws ≡ after_tail text.now at ws }
{
    if peek(text, at) == Some(bytes::SET_CLOSES) {
        return Ok(Next::Done(at + 1));
    }
    Err(Refusal {
        cause: Cause::Byte,
        place: at,
    })
}

// An argument has ended at `at`, and `left` are due after it.
fn pass_argument(text: &[u8], at: usize, left: usize) -> Result<Next, Refusal>
    ensures { (ws : List ℕ) → of_next result ws ≡ after_argument text.now left at ws }
{
    match peek(text, at) {
        Some(bytes::COMMA) => {
            if left == 0 {
                return Err(Refusal {
                    cause: Cause::Arguments,
                    place: at,
                });
            }
            Ok(Next::Due(Item::Argument(left - 1), at + 1))
        }
        Some(bytes::ARGUMENTS_CLOSE) => {
            if left == 0 {
                return Ok(Next::Done(at + 1));
            }
            Err(Refusal {
                cause: Cause::Arguments,
                place: at,
            })
        }
        _ => Err(Refusal {
            cause: Cause::Byte,
            place: at,
        }),
    }
}

// An item has ended at `at`.
pub fn pass(text: &[u8], at: usize, item: Item, words: &mut Words) -> Result<Next, Refusal>
    ensures { of_next result words.new.items ≡ after edition_one text.now item at words.old.items }
{
    match item {
        Item::Member => pass_member(text, at, words),
        Item::Tail => pass_tail(text, at),
        Item::Argument(left) => pass_argument(text, at, left),
    }
}
