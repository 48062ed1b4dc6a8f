// Lines of an input, one after the other, each in place in a buffer. LF stands between them.
ghost use Rattle.std.specs.Prelude.{◌≤◌};

use crate::buffers::INPUT;
use case_fields::scan::find;
use full_reads::read_full;
use std::io::{Read, Result};

const LINE_FEED: u8 = 10;

// What is held and was not given out yet lies between two places of the buffer.
#[derive(Drop)]
pub struct Lines<R> {
    reader: R,
    input: [u8; INPUT],
    from: usize,
    held: usize,
    ghost ordered: { from ≤ held },
    ghost within: { held ≤ 131073 },
}

impl<R: Read> Lines<R> {
    pub fn new(reader: R) -> Lines<R> {
        Lines {
            reader,
            input: [0; INPUT],
            from: 0,
            held: 0,
        }
    }

    // The next line, without its LF, if there is one. A line that is longer than the buffer counts as empty.
    pub fn next(&mut self) -> Result<Option<&[u8]>> {
        let mut long = find(&self.input[self.from..self.held], LINE_FEED);
        if long.is_none() {
            self.refill()?;
            long = find(&self.input[self.from..self.held], LINE_FEED);
        }
        let Some(long) = long else {
            return Ok(self.last());
        };
        let from = self.from;
        self.from = from + long + 1;
        let lines = &*self;
        Ok(Some(&lines.input[from..from + long]))
    }

    // All that is held, where it has no LF.
    fn last(&mut self) -> Option<&[u8]> {
        let from = self.from;
        self.from = self.held;
        let lines = &*self;
        match lines.held - from {
            0 => None,
            INPUT => Some(&lines.input[..0]),
            _ => Some(&lines.input[from..lines.held]),
        }
    }

    // What is held goes to the start, and more is read after it.
    fn refill(&mut self) -> Result<()> {
        let kept = self.held - self.from;
        self.input.copy_within(self.from..self.held, 0);
        self.from = 0;
        self.held = kept;
        self.held += read_full(&mut self.reader, &mut self.input[kept..])?;
        Ok(())
    }
}
