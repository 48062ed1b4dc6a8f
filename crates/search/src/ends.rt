// How a run ends. specs/Ends.antt states the number and word of SPECIFICATION 6.2 for every case.
ghost use Rattle.std.specs.Prelude.{◌≡◌};
ghost use Rattle.search.specs.Ends.{end_number, end_of};

// Kept: `Space` is no lack of a value, but one of the six ends of that table.
#[derive(Clone, Copy)]
pub enum End {
    // every node was visited and every answer held
    Done,
    // another node is due and steps are spent
    Steps,
    // the due node is deeper than lent
    Depth,
    // the due node would need one unknown too many
    Names,
    // the due node is larger than lent
    Size,
    // an answer node was visited and its words don't fit what remains
    Space,
}

// The table's number.
pub fn number_of_end(end: End) -> u32
    ensures { result ≡ end_number end }
{
    match end {
        End::Done => 0,
        End::Steps => 20,
        End::Depth => 21,
        End::Names => 24,
        End::Size => 22,
        End::Space => 23,
    }
}

// The table's end of that number, if it has one.
// Kept: a function beside `number_of_end`, as the definitions `end_of` and `end_number` are; `TryFrom` would want an error type that tells nothing.
pub fn end_of_number(number: u64) -> Option<End>
    ensures { result ≡ end_of number }
{
    match number {
        0 => Some(End::Done),
        20 => Some(End::Steps),
        21 => Some(End::Depth),
        22 => Some(End::Size),
        23 => Some(End::Space),
        24 => Some(End::Names),
        _ => None,
    }
}
