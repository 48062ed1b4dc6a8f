// Why a call is refused, and where: what every refusing entry answers.
ghost use Rattle.std.specs.Prelude.{◌≡◌};
ghost use Rattle.terms.specs.Refusal.{number};

// The table of refusals, SPECIFICATION 7. Its number 8 has four causes, which are told apart here; `number` gives the table's numbers.
#[derive(Clone, Copy, Debug, PartialEq, Eq)]
pub enum Cause {
    // a byte that the text form hasn't here, or the text stops
    Byte,
    // a number is missing or has a leading zero
    Number,
    // a number, a count, a run limit or the words are above their limit
    Limit,
    // text names an unknown or a functor that isn't declared
    Undeclared,
    // a wrong count of arguments
    Arguments,
    // brackets nest too deep
    Nesting,
    // an output buffer or the room is too small
    Buffer,
    // words stop early
    WordsStop,
    // a word that stands for nothing
    WordsMeaningless,
    // a word of an unknown or a functor that isn't declared
    WordsUndeclared,
    // words are left over
    WordsLeft,
}

#[derive(Clone, Copy, Debug, PartialEq, Eq)]
pub struct Refusal {
    pub cause: Cause,
    pub place: usize,
}

// The table's number.
// Kept: docs/PROMISES.md names this function, and a `From<Cause>` beside it would be its twin.
pub fn number_of(cause: Cause) -> u32
    ensures { result ≡ number cause }
{
    match cause {
        Cause::Byte => 1,
        Cause::Number => 2,
        Cause::Limit => 3,
        Cause::Undeclared => 4,
        Cause::Arguments => 5,
        Cause::Nesting => 6,
        Cause::Buffer => 7,
        Cause::WordsStop => 8,
        Cause::WordsMeaningless => 8,
        Cause::WordsUndeclared => 8,
        Cause::WordsLeft => 8,
    }
}
