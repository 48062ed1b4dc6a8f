// Bytes of a text: the byte at a place, and a run of bytes that is due there.
ghost use Rattle.std.specs.Prelude.{◌≡◌};
ghost use Rattle.numerals.specs.Bytes.{byte, met, of_byte};

use terms::refusal::{Cause, Refusal};

// The bytes that the text form has beside keys and digits.
pub const UNKNOWN: u8 = b'x';

pub const FUNCTOR: u8 = b'f';

pub const SET_OPENS: u8 = b'{';

pub const SET_CLOSES: u8 = b'}';

pub const BAR: u8 = b'|';

pub const COMMA: u8 = b',';

pub const ARGUMENTS_OPEN: u8 = b'(';

pub const ARGUMENTS_CLOSE: u8 = b')';

pub const LINE_FEED: u8 = b'\n';

// The byte at `at`, if the text has not stopped there.
pub fn peek(text: &[u8], at: usize) -> Option<u8>
    ensures { of_byte result ≡ byte text.now at }
{
    text.get(at).copied()
}

// The bytes of `key`, due at `at`: where reading goes on after them, or the first byte that differs.
pub fn meet(text: &[u8], at: usize, key: &[u8]) -> Result<usize, Refusal>
    ensures { result ≡ met text.now key.now at }
{
    let mut p = at;
    for b in key {
        if peek(text, p) != Some(*b) {
            return Err(Refusal {
                cause: Cause::Byte,
                place: p,
            });
        }
        p += 1;
    }
    Ok(p)
}
