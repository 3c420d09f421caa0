// What the program can be asked.
use super::arguments::Arguments;
use super::command::{COMMANDS, Command};
use super::names::LONGEST;
use super::output::{ANSWER, channel_of, made, tell_of, write};
use super::status::Status;
use super::system::Streams;
use crate::sentences::ops::put_ops;
use crate::sentences::say::line_of;
use crate::sentences::templates;
use std::env::Env;
use text_bytes::Writer;

// All commands: how each is written, and what it prints.
pub fn full(rt: &impl Streams) -> Status {
    let mut out = [0u8; ANSWER];
    let mut w = Writer::new(&mut out);
    for command in &COMMANDS {
        w.put_bytes(command.usage);
        w.put_bytes(command.prints);
    }
    made(rt, &w)
}

// All that is said of one command.
fn about_command(rt: &impl Streams, command: &Command) -> Status {
    let mut out = [0u8; ANSWER];
    let mut w = Writer::new(&mut out);
    w.put_bytes(command.usage);
    w.put_bytes(command.prints);
    w.put_bytes(command.example);
    made(rt, &w)
}

fn about_ops(rt: &impl Streams) -> Status {
    let mut out = [0u8; ANSWER];
    let mut w = Writer::new(&mut out);
    put_ops(&mut w);
    made(rt, &w)
}

// help with the name of a command, or of the ops.
pub fn about(rt: &(impl Streams + Env), arguments: Arguments) -> Status {
    let mut bytes = [0u8; LONGEST];
    let name = arguments.beginning(rt, 2, &mut bytes);
    if name == b"ops".as_slice() {
        return about_ops(rt);
    }
    match Command::find(name) {
        Some(command) => about_command(rt, command),
        None => unknown(rt, arguments, name),
    }
}

// A wrong number of arguments.
pub(super) fn misused(rt: &impl Streams, arguments: Arguments, command: &Command) -> Status {
    let mut out = [0u8; ANSWER];
    let mut w = Writer::new(&mut out);
    w.put_bytes(b"malformed: usage: ");
    w.put_bytes(command.usage);
    write(rt, channel_of(arguments), &w, Status::Failed)
}

// No command has this name.
pub fn unknown(rt: &impl Streams, arguments: Arguments, name: &[u8]) -> Status {
    tell_of(
        rt,
        channel_of(arguments),
        name,
        line_of(Status::Failed, templates::MALFORMED, templates::NO_COMMAND),
    )
}
