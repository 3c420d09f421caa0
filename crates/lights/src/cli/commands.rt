// The commands, done. Each takes the runtime and the arguments: one value of both would be a type with a
// parameter and a lifetime.
use super::arguments::Arguments;
use super::command::{Action, Command};
use super::files::LARGE;
use super::help;
use super::names::{Kind, LONGEST, Name};
use super::numbers::{TOO_MANY, read_number};
use super::output::{Stream, misread, tell_of, tell_only, told, wrong};
use super::serving::{Lines, Talk};
use super::status::{Status, worst};
use super::system::{Host, Streams};
use crate::pictures;
use crate::sentences::templates;
use crate::sheets::runs::{View, put_run};
use crate::sheets::{checking, images, loading, ops, reading, runs};
use std::env::{Env, FillError};
use text_bytes::{Writer, from, until};

// check SHEET..: standard input is read once.
fn check_all(rt: &impl Host, arguments: Arguments, count: usize) -> Status {
    let mut bytes = [0u8; LONGEST];
    let mut dash = Kind::Input;
    worst((2..count).map(|k| {
        let name = Name::take(rt, arguments, k, dash, &mut bytes);
        if let Kind::Input = name.kind {
            dash = Kind::Read;
        }
        tell_of(rt, Stream::Output, name.path, checking::answer(rt, name))
    }))
}

// decode WORD..
fn decode_all(rt: &(impl Streams + Env), arguments: Arguments, count: usize) -> Status {
    let mut bytes = [0u8; 8];
    worst((2..count).map(|k| ops::decode(rt, arguments.beginning(rt, k, &mut bytes))))
}

// encode op=.. ..: the arguments as one op line. Each is taken into its place in the line, behind a space.
fn encode_all(rt: &(impl Streams + Env), arguments: Arguments, count: usize) -> Status {
    let mut line = [0u8; LARGE];
    let mut end: usize = 0;
    for k in 2..count {
        if end >= LARGE {
            return wrong(rt, templates::LONG_OP_LINE);
        }
        line[end] = b' ';
        let Ok(length) = arguments.take(rt, k, &mut line[end + 1..]) else {
            return wrong(rt, templates::LONG_OP_LINE);
        };
        end = end.saturating_add(1).saturating_add(length);
    }
    // without the space before the first argument
    ops::encode(rt, from(until(&line, end), 1))
}

// Argument k as a number of beats; a picture begins with the first beat where there is none.
fn take_beats(rt: &impl Env, arguments: Arguments, k: usize) -> Option<u32> {
    let mut bytes = [0u8; LARGE];
    match arguments.take(rt, k, &mut bytes) {
        Ok(n) => read_number(until(&bytes, n), TOO_MANY),
        Err(FillError::TooLong) => None,
        Err(FillError::NotPresent) => Some(0),
    }
}

// A command about the file that its first argument names. What it gives is a status, since the borrow
// checker doesn't cover a call of a closure that gives a message.
fn about_file<F: FnOnce(Name) -> Status>(rt: &impl Host, arguments: Arguments, done: F) -> Status
    requires { F.IsAlwaysCallable done }
{
    let mut bytes = [0u8; LONGEST];
    done(Name::take(rt, arguments, 2, Kind::Input, &mut bytes))
}

// SHEET BEATS [FROM], and what is put of these beats.
fn view<F: FnOnce(&mut Writer, View)>(rt: &impl Host, arguments: Arguments, put: F) -> Status
    requires { F.IsAlwaysCallable put }
{
    let beats = take_beats(rt, arguments, 3);
    let from = take_beats(rt, arguments, 4);
    let (Some(beats), Some(from)) = (beats, from) else {
        return misread(rt, arguments, templates::NO_BEATS);
    };
    let mut bytes = [0u8; LONGEST];
    let name = Name::take(rt, arguments, 2, Kind::Input, &mut bytes);
    told(rt, name, runs::run(rt, name, from, beats, put))
}

// A command that asks for lines.
fn lines(lines: Lines) -> Talk {
    Talk::wants(lines, Status::Done)
}

// bench SHEET: a chip with a sheet's program, its engines held. Standard input has the bench's commands.
fn bench(rt: &impl Host, arguments: Arguments) -> Talk {
    let mut bytes = [0u8; LONGEST];
    let name = Name::take(rt, arguments, 2, Kind::Taken, &mut bytes);
    match loading::held(rt, name) {
        Ok((_, chip)) => lines(Lines::Bench(chip)),
        Err(message) => Talk::ended(told(rt, name, Err(message))),
    }
}

// A command, with so many arguments.
fn perform(rt: &impl Host, action: Action, arguments: Arguments, count: usize) -> Talk {
    let alone = count == 2;
    let status = match action {
        Action::Check => check_all(rt, arguments, count),
        Action::Image => about_file(rt, arguments, |name| {
            told(rt, name, reading::image(rt, name))
        }),
        Action::Sheet => about_file(rt, arguments, |name| {
            told(rt, name, images::sheet(rt, arguments, name))
        }),
        Action::Decode if alone => return lines(Lines::Decode),
        Action::Decode => decode_all(rt, arguments, count),
        Action::Encode if alone => return lines(Lines::Encode),
        Action::Encode => encode_all(rt, arguments, count),
        Action::Run => view(rt, arguments, put_run),
        Action::Show => view(rt, arguments, pictures::show),
        Action::Svg => view(rt, arguments, pictures::svg),
        Action::Bench if alone => return lines(Lines::Bench(chip::new_chip())),
        Action::Bench => return bench(rt, arguments),
        Action::Several => match arguments {
            Arguments::Program => return lines(Lines::Commands),
            // not among such lines
            Arguments::Line(_) => wrong(rt, templates::COMMANDS_ALREADY),
        },
        Action::Help if alone => help::full(rt),
        Action::Help => help::about(rt, arguments),
        Action::Version => tell_only(rt, templates::VERSION),
    };
    Talk::ended(status)
}

// A command by its name.
fn by_name(rt: &impl Host, arguments: Arguments, name: &[u8]) -> Talk {
    let Some(command) = Command::find(name) else {
        return Talk::ended(help::unknown(rt, arguments, name));
    };
    let count = arguments.count(rt);
    if !command.takes(count) {
        return Talk::ended(help::misused(rt, arguments, command));
    }
    perform(rt, command.action, arguments, count)
}

// The command that the arguments name; a name that doesn't fit is no command's.
pub fn command_of(rt: &impl Host, arguments: Arguments) -> Talk {
    let mut bytes = [0u8; LONGEST];
    match arguments.take(rt, 1, &mut bytes) {
        Ok(n) => by_name(rt, arguments, until(&bytes, n)),
        Err(FillError::TooLong) => { Talk::ended(help::unknown(rt, arguments, until(&bytes, 40))) }
        Err(FillError::NotPresent) => Talk::ended(tell_only(rt, templates::BRIEF)),
    }
}
