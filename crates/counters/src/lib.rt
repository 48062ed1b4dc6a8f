// The running record of nodes visited, answers and words used, and how it grows.
//
// In specs/, `Counted` says what the record becomes.
#![tactic(auto)]

ghost use Rattle.std.specs.Prelude.{◌≡◌, ◌+◌, ◌<◌, ◌^◌};
ghost use Rattle.counters.specs.Counted.{counted, noted};

use results::ran::Record;

// Kept: the record is lent by `&mut` to these two functions, as docs/DECISIONS.md ("Forms by place") says; the two by value call them.

// So many nodes more were visited.
pub fn count_nodes(counts: &mut Record, nodes: u64)
    requires { counts.old.visited + nodes < 2 ^ 64 }
    ensures { counts.new ≡ counted counts.old nodes }
{
    counts.visited = counts.visited + nodes;
}

// An answer of so many words more is listed.
pub fn note_answer(counts: &mut Record, n: usize)
    requires { (counts.old.answers + 1 < 2 ^ 64) × (counts.old.words + n < 2 ^ 64) }
    ensures { counts.new ≡ noted counts.old n }
{
    counts.answers = counts.answers + 1;
    counts.words = counts.words + n;
}

// The record by value, with so many nodes more.
// Kept: beside `with_answer`: each calls its own of the two above, and only the copy is shared.
pub fn with_nodes(counts: Record, nodes: u64) -> Record
    requires { counts.visited + nodes < 2 ^ 64 }
    ensures { result ≡ counted counts nodes }
{
    let mut more = counts;
    count_nodes(&mut more, nodes);
    more
}

// The record by value, with an answer of so many words more.
// Kept: as `with_nodes`.
pub fn with_answer(counts: Record, n: usize) -> Record
    requires { (counts.answers + 1 < 2 ^ 64) × (counts.words + n < 2 ^ 64) }
    ensures { result ≡ noted counts n }
{
    let mut more = counts;
    note_answer(&mut more, n);
    more
}
