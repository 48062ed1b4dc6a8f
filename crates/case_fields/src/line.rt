// Where the fields of a line lie: TABs stand between them.
ghost use Rattle.std.specs.Prelude.{◌≡◌, ◌≤◌, ◌↔◌, IsSome, MatchOption, [], take};
ghost use Rattle.case_fields.specs.Line.{count, field_of};

use crate::scan::find;

pub const TAB: u8 = 9;

// How many TABs a line has: one less than its fields.
pub fn tabs(line: &[u8]) -> usize
    ensures { result ≡ count 9 line.now }
{
    line.iter().filter(|byte| **byte == TAB).count()
}

// Field n, counted from 0, if the line has so many. It may be empty.
pub fn field(line: &[u8], n: usize) -> Option<&[u8]>
    ensures there { IsSome result ↔ (n ≤ count 9 line.now) }
    ensures exact { MatchOption result (field_of n line.now ≡ []) (λ part. part.now ≡ field_of n line.now) }
{
    let mut rest = line;
    for _ in 0..n {
        let end = find(rest, TAB)?;
        rest = &rest[end + 1..];
    }
    match find(rest, TAB) {
        Some(end) => Some(&rest[..end]),
        None => Some(rest),
    }
}

// The first n items, or all where there are fewer.
pub fn first<T>(items: &[T], n: usize) -> &[T]
    ensures { result.now ≡ take n items.now }
{
    items.get(..n).unwrap_or(items)
}
