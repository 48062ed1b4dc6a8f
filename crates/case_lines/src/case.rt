// A line as a case. A further kind is a variant and an arm here, and an arm in `cases`.
ghost use Rattle.std.specs.Prelude.{◌<◌};

use crate::buffers::Lists;
use case_fields::hex::read_hex;
use case_fields::line::{field, tabs};
use case_fields::list::read_list;
use case_fields::number::read_number;

// A question in words.
#[derive(Clone, Copy)]
pub struct Question<'a> {
    pub unknowns: usize,
    pub arities: &'a [u8],
    pub equations: usize,
    pub words: &'a [u16],
}

// A run's limits, and how many answer words and how much room it is lent.
#[derive(Clone, Copy)]
pub struct Loan {
    pub steps: u64,
    pub depth: usize,
    pub size: usize,
    pub space: u64,
    pub room: u64,
}

#[derive(Clone, Copy)]
pub enum Case<'a> {
    Read {
        text: &'a [u8],
        arities: u64,
        words: u64,
    },
    Writeq {
        question: Question<'a>,
        space: u64,
    },
    Writel {
        arities: &'a [u8],
        end: u64,
        visited: u64,
        answers: usize,
        words: &'a [u16],
        space: u64,
    },
    Equal {
        arities: &'a [u8],
        words: &'a [u16],
    },
    Values {
        question: Question<'a>,
        row: &'a [u16],
    },
    Run {
        loan: Loan,
        text: &'a [u8],
    },
    Runw {
        question: Question<'a>,
        loan: Loan,
    },
}

// Field n as a number.
fn number(line: &[u8], n: usize) -> Option<u64> {
    read_number(field(line, n)?)
}

// The fields 1 to 4.
// Kept: `as`, for there is no `From` between `usize` and `u64`, and `try_from` would bring an error that can't come.
fn question_of<'a>(
    line: &[u8],
    arities: &'a mut [u8],
    words: &'a mut [u16],
) -> Option<Question<'a>> {
    Some(Question {
        unknowns: number(line, 1)? as usize,
        arities: read_list(field(line, 2)?, arities)?,
        equations: number(line, 3)? as usize,
        words: read_list(field(line, 4)?, words)?,
    })
}

// The limits and the space, which begin at field n, and so much room.
// Kept: `as`, for there is no `From` between `usize` and `u64`, and `try_from` would bring an error that can't come.
fn loan_of(line: &[u8], n: usize, room: u64) -> Option<Loan>
    requires { n < 10 }
{
    Some(Loan {
        steps: number(line, n)?,
        depth: number(line, n + 1)? as usize,
        size: number(line, n + 2)? as usize,
        space: number(line, n + 3)?,
        room,
    })
}

// The case of a line, by its first field and its count of TABs, if all fields are formed as they should be. Its lists go to the start of the arrays. A text is
// read with all that there is, and a run of a text in all the room.
// Kept: `as`, for there is no `From` between `usize` and `u64`, and `try_from` would bring an error that can't come.
pub fn case_of<'a>(line: &[u8], lists: &'a mut Lists) -> Option<Case<'a>> {
    let Lists {
        text,
        arities,
        words,
        row,
    } = lists;
    let case = match (field(line, 0)?, tabs(line)) {
        (b"text", 1) => Case::Read {
            text: read_hex(field(line, 1)?, text)?,
            arities: u64::MAX,
            words: u64::MAX,
        },
        (b"read", 3) => Case::Read {
            text: read_hex(field(line, 1)?, text)?,
            arities: number(line, 2)?,
            words: number(line, 3)?,
        },
        (b"writeq", 5) => Case::Writeq {
            question: question_of(line, arities, words)?,
            space: number(line, 5)?,
        },
        (b"writel", 6) => Case::Writel {
            arities: read_list(field(line, 1)?, arities)?,
            end: number(line, 2)?,
            visited: number(line, 3)?,
            answers: number(line, 4)? as usize,
            words: read_list(field(line, 5)?, words)?,
            space: number(line, 6)?,
        },
        (b"equal", 2) => Case::Equal {
            arities: read_list(field(line, 1)?, arities)?,
            words: read_list(field(line, 2)?, words)?,
        },
        (b"values", 5) => Case::Values {
            question: question_of(line, arities, words)?,
            row: read_list(field(line, 5)?, row)?,
        },
        (b"run", 5) => Case::Run {
            loan: loan_of(line, 1, u64::MAX)?,
            text: read_hex(field(line, 5)?, text)?,
        },
        (b"runw", 9) => Case::Runw {
            question: question_of(line, arities, words)?,
            loan: loan_of(line, 5, number(line, 9)?)?,
        },
        _ => return None,
    };
    Some(case)
}
