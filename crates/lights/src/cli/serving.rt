// Lines of standard input, each answered as it comes: command lines, words, op lines, or the bench's.
use super::arguments::Arguments;
use super::input::{Input, InputError};
use super::output::{stopped, wrong};
use super::status::Status;
use super::system::{Host, Streams};
use super::{commands, input};
use crate::bench::answers;
use crate::sentences::templates;
use crate::sheets::ops;
use machine::Chip;
use std::io::Read;

// What the lines are.
#[derive(Clone, Copy)]
pub enum Lines {
    Commands,
    Decode,
    Encode,
    // with the bench's chip
    Bench(Chip),
}

// How a command or a line ended, and which lines it wants, if any.
#[derive(Clone, Copy)]
pub struct Talk {
    pub status: Status,
    pub lines: Option<Lines>,
}

impl Talk {
    // Wants no lines.
    pub fn ended(status: Status) -> Talk {
        Talk {
            status,
            lines: None,
        }
    }

    pub fn wants(lines: Lines, status: Status) -> Talk {
        Talk {
            status,
            lines: Some(lines),
        }
    }
}

// `quit` ends the bench, and lines of words or ops that stand among command lines.
fn quits(lines: &Lines, line: &[u8], among_commands: bool) -> bool {
    line == b"quit".as_slice()
        && match lines {
            Lines::Commands => false,
            Lines::Decode | Lines::Encode => among_commands,
            Lines::Bench(_) => true,
        }
}

fn answered(rt: &impl Host, lines: Lines, line: &[u8], among_commands: bool) -> Talk {
    if quits(&lines, line, among_commands) {
        return Talk::ended(Status::Done);
    }
    match lines {
        Lines::Commands => commands::command_of(rt, Arguments::Line(line)),
        Lines::Decode => Talk::wants(lines, ops::decode_line(rt, line)),
        Lines::Encode => Talk::wants(lines, ops::encode(rt, line)),
        Lines::Bench(chip) => answers::answer(rt, chip, line),
    }
}

// The answer where a line can't be had.
fn instead_of_line(rt: &impl Streams, why: InputError) -> Status {
    match why {
        InputError::TooLong => wrong(rt, templates::LONG_LINE),
        InputError::Broken => stopped(rt, templates::INPUT_BROKEN),
        InputError::Endless => stopped(rt, templates::INPUT_ENDLESS),
    }
}

// Lines that are answered one by one, to the end of the input or as far as they are wanted. The worst
// status. The loop has a function of its own, since the compiler then copies the chip less often.
fn serve(rt: &impl Host, from: &mut impl Read, start: Lines, input: &mut Input) -> Status {
    let among_commands = matches!(start, Lines::Commands);
    let mut lines = start;
    let mut worst = Status::Done;
    for _ in 0..input::MOST {
        let talk = match input.next(from) {
            Ok(Some(line)) => answered(rt, lines, line, among_commands),
            Ok(None) => return worst,
            Err(why) => Talk::wants(lines, instead_of_line(rt, why)),
        };
        worst = worst.max(talk.status);
        if worst.stops() {
            return worst;
        }
        lines = match talk.lines {
            Some(next) => next,
            None if among_commands => Lines::Commands,
            None => return worst,
        };
    }
    Status::Lost
}

// The program's command line, and the lines that it asks for.
pub fn run(rt: &impl Host) -> Status {
    let talk = commands::command_of(rt, Arguments::Program);
    match talk.lines {
        Some(lines) => serve(rt, &mut rt.reader(), lines, &mut Input::new()),
        None => talk.status,
    }
}
