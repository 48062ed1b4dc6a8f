// The test driver: cases on standard input, one a line, with TABs between their fields; results on standard output, one a line.
//
//   text    HEX                                    ->  ok U|A|E|W
//   read    HEX AC WC                              ->  ok U|A|E|W
//   writeq  U A E W CAP                            ->  ok HEX
//   writel  A END VISITED COUNT W CAP              ->  ok HEX
//   equal   A W                                    ->  equal, differ
//   values  U A E W ROW                            ->  yes, no
//   run     STEPS DEPTH SIZE SPACE HEX             ->  END VISITED ANSWERS W
//   runw    U A E W STEPS DEPTH SIZE SPACE ROOM    ->  END VISITED ANSWERS W
//
// Where an entry refuses, the result is `refused N P`. HEX is bytes in hex; A, W and ROW are numbers with commas between, possibly none; the others are
// numbers, of which AC, WC, CAP, SPACE and ROOM say how much is lent. A line that is no case ends the program, with a word on standard error. A read or a write
// that fails ends it with an error.
//
// Crate `case_lines` reads the lines and writes the results; `entry_cases` and `run_cases` have the kinds.
#![tactic(auto)]

use case_fields::line::first;
use case_lines::answer::{Answer, put_answer};
use case_lines::buffers::{BYTES, ITEMS, Laid, Lists, PAGE, ROOM};
use case_lines::case::{Case, case_of};
use case_lines::input::Lines;
use case_lines::lending::lent;
use entry_cases::comparing::{equal_case, values_case};
use entry_cases::reading::read_case;
use entry_cases::writing::{writel_case, writeq_case};
use run_cases::texts::run_case;
use run_cases::words::runw_case;
use std::io;
use std::io::Write;
use word_writer::put::put_byte;

const LINE_FEED: u8 = 10;

fn answer<'a>(case: Case, laid: &'a mut Laid) -> Answer<'a> {
    let Laid {
        bytes: laid_bytes,
        words: laid_words,
        room,
    } = laid;
    let room = &mut **room;
    match case {
        Case::Read {
            text,
            arities,
            words,
        } => read_case(text, lent(laid_bytes, arities), lent(laid_words, words)),
        Case::Writeq { question, space } => writeq_case(question, lent(laid_bytes, space)),
        Case::Writel {
            arities,
            end,
            visited,
            answers,
            words,
            space,
        } => {
            let text = lent(laid_bytes, space);
            writel_case(arities, end, visited, answers, words, text)
        }
        Case::Equal { arities, words } => equal_case(arities, words),
        Case::Values { question, row } => values_case(question, row),
        Case::Run { loan, text } => run_case(loan, text, laid_words, room),
        Case::Runw { question, loan } => { runw_case(question, loan, laid_words, room) }
    }
}

// The length of a line's result on the page, if the line is a case.
fn take_line(line: &[u8], lists: &mut Lists, laid: &mut Laid, page: &mut [u8]) -> Option<usize> {
    let case = case_of(line, lists)?;
    Some(put_answer(page, answer(case, laid)))
}

// Writes out the result that stands on a page.
fn write_out(rt: &impl Print, page: &mut [u8], length: usize) -> io::Result<()> {
    let end = put_byte(page, length, LINE_FEED);
    io::writer(rt).write_all(first(page, end))
}

// A word on the line that is no case.
fn complain(rt: &impl Eprint, line: u64) -> io::Result<()> {
    eprintln!(rt; "cases: line {line}: malformed case")
}

// Line after line until the input ends. Nothing says that it does, so the lines are counted up to a number that no run reaches.
fn take_lines(
    rt: &(impl Input + Print + Eprint),
    lists: &mut Lists,
    laid: &mut Laid,
    page: &mut [u8],
) -> io::Result<()> {
    let mut lines = Lines::new(rt.reader());
    for number in 1..u64::MAX {
        let Some(line) = lines.next()? else {
            return Ok(());
        };
        let Some(length) = take_line(line, lists, laid, page) else {
            return complain(rt, number);
        };
        write_out(rt, page, length)?;
    }
    Ok(())
}

fn main(rt: HostRuntime) -> io::Result<()> {
    let mut lists = Lists {
        text: [0; 65536],
        arities: [0; ITEMS],
        words: [0; ITEMS],
        row: [0; ITEMS],
    };
    let mut room = [0; ROOM];
    let mut laid = Laid {
        bytes: [0; BYTES],
        words: [0; ITEMS],
        room: &mut room,
    };
    let mut page = [0; PAGE];
    take_lines(&rt, &mut lists, &mut laid, &mut page)
}
