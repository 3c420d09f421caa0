// The arguments of a command. They are numbered as a program's are: 1 is the command's name.
use std::env::{Env, FillError};
use text::SPACE;
use text_bytes::{Writer, until};

#[derive(Clone, Copy)]
pub enum Arguments<'a> {
    // those that the program was started with
    Program,
    // what stands between the spaces of a line of standard input
    Line(&'a [u8]),
}

// How many arguments the program was started with, its own name among them.
fn count_all(rt: &impl Env) -> usize {
    (0..usize::MAX)
        .find(|k| matches!(rt.arg(*k, &mut []), Err(FillError::NotPresent)))
        .unwrap_or(usize::MAX)
}

// Argument k of a line; an empty line has none.
fn part(line: &[u8], k: usize) -> Result<&[u8], FillError> {
    if k == 0 || line.is_empty() {
        return Err(FillError::NotPresent);
    }
    line.split(|b| *b == SPACE)
        .nth(k - 1)
        .ok_or(FillError::NotPresent)
}

impl Arguments<'_> {
    // Argument k, into lent bytes: so many of them. If it is too long, they hold its beginning. A count, as
    // `Env::arg` gives, since the callers use the bytes again where it is an error.
    pub fn take(self, rt: &impl Env, k: usize, into: &mut [u8]) -> Result<usize, FillError> {
        let line = match self {
            Arguments::Program => return rt.arg(k, into),
            Arguments::Line(line) => line,
        };
        let part = part(line, k)?;
        Writer::new(into).put_bytes(part);
        if part.len() > into.len() {
            return Err(FillError::TooLong);
        }
        Ok(part.len())
    }

    // Argument k, or as much of it as the lent bytes hold.
    pub fn beginning<'b>(self, rt: &impl Env, k: usize, into: &'b mut [u8]) -> &'b [u8] {
        let end = match self.take(rt, k, into) {
            Ok(n) => n,
            Err(FillError::TooLong) => into.len(),
            Err(FillError::NotPresent) => 0,
        };
        until(into, end)
    }

    // One more than the number of the last argument.
    pub fn count(self, rt: &impl Env) -> usize {
        match self {
            Arguments::Program => count_all(rt),
            Arguments::Line([]) => 1,
            Arguments::Line(line) => 1 + line.split(|b| *b == SPACE).count(),
        }
    }
}
