// Answers: each is made in lent bytes and written by one call, so that the lines of several programs
// that write to one file never mix.
use super::arguments::Arguments;
use super::names::Name;
use super::status::Status;
use super::system::Streams;
use crate::sentences::say::{Message, line_of, put_message};
use crate::sentences::templates;
use std::io;
use std::io::ErrorKind;
use text_bytes::Writer;

// No answer but a sheet or a picture is longer.
pub const ANSWER: usize = 8192;

// Where a line goes.
#[derive(Clone, Copy)]
pub enum Stream {
    Output,
    Error,
}

// By one call, as long as the system takes all the bytes at once.
fn write_all(rt: &impl Streams, to: Stream, bytes: &[u8]) -> io::Result<()> {
    match to {
        Stream::Output => rt.write_all(bytes),
        Stream::Error => rt.write_error(bytes),
    }
}

// The program stops, and says why on standard error.
fn lost(rt: &impl Streams, why: &[u8]) -> Status {
    match write_all(rt, Stream::Error, why) {
        Err(error) if error.kind() == ErrorKind::BrokenPipe => Status::Unread,
        _ => Status::Lost,
    }
}

// Writes these bytes. The command ends so, unless they are lost.
pub fn write_bytes(rt: &impl Streams, to: Stream, bytes: &[u8], status: Status) -> Status {
    match write_all(rt, to, bytes) {
        Ok(()) => status,
        Err(error) if error.kind() == ErrorKind::BrokenPipe => Status::Unread,
        Err(_) => lost(rt, b"lights: the answer can't be written\n"),
    }
}

// Writes what was put. The command ends so, unless it is lost.
pub fn write(rt: &impl Streams, to: Stream, w: &Writer, status: Status) -> Status {
    match w.written() {
        Some(bytes) => write_bytes(rt, to, bytes, status),
        None => lost(
            rt,
            b"lights: an answer is longer than the program can hold\n",
        ),
    }
}

// Writes what a command makes.
pub fn made(rt: &impl Streams, w: &Writer) -> Status {
    write(rt, Stream::Output, w, Status::Done)
}

// Writes a line about a file or a command with this name.
pub fn tell_of(rt: &impl Streams, to: Stream, name: &[u8], message: Message) -> Status {
    let mut out = [0u8; ANSWER];
    let mut w = Writer::new(&mut out);
    put_message(&mut w, &message, name);
    write(rt, to, &w, message.status)
}

// How a command about a file ended; what stands against it is told on standard error.
pub fn told(rt: &impl Streams, name: Name, outcome: Result<Status, Message>) -> Status {
    outcome.unwrap_or_else(|message| tell_of(rt, Stream::Error, name.path, message))
}

// Writes a line about nothing that has a name.
pub fn tell(rt: &impl Streams, to: Stream, message: Message) -> Status {
    tell_of(rt, to, b"", message)
}

// Writes a sentence alone.
pub fn tell_only(rt: &impl Streams, template: &'static [u8]) -> Status {
    tell(
        rt,
        Stream::Output,
        line_of(Status::Done, templates::NOTHING, template),
    )
}

// Writes that a line of input, or an argument that stands for one, can't be understood.
pub fn wrong(rt: &impl Streams, template: &'static [u8]) -> Status {
    tell(
        rt,
        Stream::Output,
        line_of(Status::Failed, templates::MALFORMED, template),
    )
}

// The program stops, and says why.
pub fn stopped(rt: &impl Streams, template: &'static [u8]) -> Status {
    tell(
        rt,
        Stream::Error,
        line_of(Status::Lost, templates::NOTHING, template),
    )
}

// Where a line about a command goes that can't be understood: the lines of standard input get their
// answers on standard output.
pub fn channel_of(arguments: Arguments) -> Stream {
    match arguments {
        Arguments::Program => Stream::Error,
        Arguments::Line(_) => Stream::Output,
    }
}

// Writes that a command can't be understood.
pub fn misread(rt: &impl Streams, arguments: Arguments, template: &'static [u8]) -> Status {
    tell(
        rt,
        channel_of(arguments),
        line_of(Status::Failed, templates::MALFORMED, template),
    )
}
