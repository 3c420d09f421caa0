// Lines of standard input, read into bytes of a fixed number as they come.
ghost use Rattle.std.specs.Prelude.{◌≤◌, ◌≡◌, IfSome, IfOk};

use super::files::LARGE;
use std::io::Read;
use std::ops::Range;
use text::LINE_FEED;

// More lines and more reads than any input has.
pub const MOST: u64 = u64::MAX;

// Why a line isn't had.
#[derive(Clone, Copy)]
pub enum InputError {
    // it is longer than the bytes
    TooLong,
    // standard input can't be read
    Broken,
    // more reads than any input has
    Endless,
}

// The bytes from `at` to `end` are read and not yet used. Two flags, since each holds with or without the
// other.
#[derive(Drop)]
pub struct Input {
    bytes: [u8; LARGE],
    pub at: usize,
    pub end: usize,
    // no more bytes come
    over: bool,
    // the line is too long, and what has come of it is dropped
    skipping: bool,
    ghost ordered: { at ≤ end },
    ghost in_bounds: { end ≤ 65536 },
}

impl Input {
    pub fn new() -> Self {
        Input {
            bytes: [0; LARGE],
            at: 0,
            end: 0,
            over: false,
            skipping: false,
        }
    }

    // The place of the line that the bytes begin with, where its end has come.
    fn find(&self) -> Option<Range<usize>>
        ensures { IfSome result (λ r. (r.start ≤ r.end) × (r.end ≤ self.now.end)) }
    {
        let bytes = &self.bytes[self.at..self.end];
        match bytes.iter().position(|b| *b == LINE_FEED) {
            Some(length) => Some(self.at..self.at + length),
            None if self.over => Some(self.at..self.end),
            None => None,
        }
    }

    // Brings the bytes to the front, so that there is room for more. A line that leaves none is too long.
    fn keep(&mut self) {
        if self.end - self.at == LARGE {
            self.skipping = true;
        }
        if self.skipping {
            self.at = self.end;
        }
        if self.at > 0 {
            self.bytes.copy_within(self.at..self.end, 0);
            self.end -= self.at;
            self.at = 0;
        }
    }

    // One read more.
    fn more(&mut self, from: &mut impl Read) -> Result<(), InputError> {
        self.keep();
        let end = self.end;
        let count = from
            .read(&mut self.bytes[end..])
            .map_err(|_| InputError::Broken)?;
        self.end += count;
        self.over = count == 0;
        Ok(())
    }

    // Goes on behind a line: its place if it is whole; none if it is but the end of the input.
    fn pass(&mut self, line: Range<usize>) -> Result<Option<Range<usize>>, InputError>
        requires { (line.start ≤ line.end) × (line.end ≤ self.old.end) }
        ensures line { IfOk result (λ found. IfSome found (λ r. (r.start ≤ r.end) × (r.end ≤ 65536))) }
    {
        let begins = self.at < self.end;
        self.at = (line.end + 1).min(self.end);
        if self.skipping {
            self.skipping = false;
            return Err(InputError::TooLong);
        }
        Ok(begins.then_some(line))
    }

    // The place of the next line among the bytes.
    fn advance(&mut self, from: &mut impl Read) -> Result<Option<Range<usize>>, InputError>
        ensures line { IfOk result (λ found. IfSome found (λ r. (r.start ≤ r.end) × (r.end ≤ 65536))) }
    {
        for _ in 0..MOST {
            if let Some(line) = self.find() {
                return self.pass(line);
            }
            self.more(from)?;
        }
        Err(InputError::Endless)
    }

    // The next line; none at the end of the input.
    pub fn next(&mut self, from: &mut impl Read) -> Result<Option<&[u8]>, InputError> {
        Ok(self.advance(from)?.map(|line| &self.bytes[line]))
    }
}
