// Numbers of a text: plain decimal, without a leading zero, of at most five digits.
ghost use Rattle.std.specs.Prelude.{◌≡◌, ◌<◌, IfSome};
ghost use Rattle.numerals.specs.Bytes.{byte};
ghost use Rattle.numerals.specs.Numbers.{digit, digits, number, between, of_digit, of_numeral};

use crate::bytes::peek;
use terms::refusal::{Cause, Refusal};

// A number that was read, and where reading goes on after it.
// Kept: other structs hold two numbers, too, but no value with its end in a text, so one struct for all would be no plainer.
#[derive(Clone, Copy)]
pub struct Numeral {
    pub value: usize,
    pub end: usize,
}

// The value of the digit b, if it is one.
pub fn digit_of(b: usize) -> Option<usize>
    ensures exact { of_digit result ≡ digit b }
    ensures below { IfSome result (λ d. d < 10) }
{
    match u8::try_from(b) {
        Ok(b) if b.is_ascii_digit() => Some(usize::from(b - b'0')),
        _ => None,
    }
}

// The value of the digit at `at`, if one stands there.
fn digit_at(text: &[u8], at: usize) -> Option<usize>
    ensures exact { of_digit result ≡ digit (byte text.now at) }
    ensures below { IfSome result (λ d. d < 10) }
{
    digit_of(usize::from(peek(text, at)?))
}

// The digits at `at` after a first digit; `from` is the number's first byte.
pub fn read_digits(text: &[u8], from: usize, at: usize, first: usize) -> Result<Numeral, Refusal>
    requires { first < 10 }
    ensures { of_numeral result ≡ digits 4 text.now from at first }
{
    let mut v = first;
    let mut p = at;
    for _ in 0..4usize {
        match digit_at(text, p) {
            Some(d) => {
                v = v * 10 + d;
                p += 1;
            }
            None => {
                return Ok(Numeral { value: v, end: p });
            }
        }
    }
    match digit_at(text, p) {
        Some(_) => Err(Refusal {
            cause: Cause::Limit,
            place: from,
        }),
        None => Ok(Numeral { value: v, end: p }),
    }
}

// The number at `at`. This and `read_between` stand in their callers: as calls they give a value by way of memory, and arities take much longer to read.
#[inline(always)]
pub fn read_number(text: &[u8], at: usize) -> Result<Numeral, Refusal>
    ensures { of_numeral result ≡ number text.now at }
{
    match digit_at(text, at) {
        Some(first) => {
            if first == 0 && digit_at(text, at + 1).is_some() {
                return Err(Refusal {
                    cause: Cause::Number,
                    place: at,
                });
            }
            read_digits(text, at, at + 1, first)
        }
        None => Err(Refusal {
            cause: Cause::Number,
            place: at,
        }),
    }
}

// The number at `at`, which is to lie between two limits.
#[inline(always)]
pub fn read_between(text: &[u8], at: usize, low: usize, high: usize) -> Result<Numeral, Refusal>
    ensures { of_numeral result ≡ between low high text.now at }
{
    let read = read_number(text, at)?;
    if read.value < low || high < read.value {
        return Err(Refusal {
            cause: Cause::Limit,
            place: at,
        });
    }
    Ok(read)
}
