// Files and standard input, read whole into lent bytes.
use super::names::{Kind, Name};
use super::status::Status;
use crate::sentences::say::{Message, line_of};
use crate::sentences::templates;
use std::fs;
use std::io::Read;
use std::rt::Files;

// So many bytes are lent for a file, a line, or an answer of many lines.
pub const LARGE: usize = 65_536;

// Why a file can't be used.
#[derive(Clone, Copy)]
pub enum FileError {
    // it can't be opened or read
    Unreadable,
    // it fills the lent bytes
    TooLarge,
    // standard input has the commands
    HasCommands,
    // standard input was read already
    ReadAlready,
}

impl From<FileError> for Message {
    fn from(why: FileError) -> Message {
        let (head, sentence) = match why {
            FileError::Unreadable => (templates::NAMED, templates::UNREADABLE),
            FileError::TooLarge => (templates::NAMED, templates::TOO_LARGE),
            FileError::HasCommands => (templates::MALFORMED, templates::HAS_COMMANDS),
            FileError::ReadAlready => (templates::MALFORMED, templates::READ_ALREADY),
        };
        line_of(Status::Failed, head, sentence)
    }
}

// All bytes that come. Each program has its own, since their errors differ. A while: how far a read goes is
// known only after it.
fn read_all<'a>(from: &mut impl Read, buf: &'a mut [u8]) -> Result<&'a [u8], FileError> {
    let mut done: usize = 0;
    while done < buf.len() {
        let count = from
            .read(&mut buf[done..])
            .map_err(|_| FileError::Unreadable)?;
        if count == 0 {
            return Ok(&buf[..done]);
        }
        done += count;
    }
    Err(FileError::TooLarge)
}

// A name that isn't UTF-8 can't be opened.
fn read_file<'a>(rt: &impl Files, path: &[u8], buf: &'a mut [u8]) -> Result<&'a [u8], FileError> {
    let name = str::from_utf8(path).map_err(|_| FileError::Unreadable)?;
    let mut file = fs::open(rt, name).map_err(|_| FileError::Unreadable)?;
    read_all(&mut file, buf)
}

// A file's bytes, in lent ones.
pub fn read<'a>(
    rt: &(impl Files + Input),
    name: Name,
    buf: &'a mut [u8],
) -> Result<&'a [u8], FileError> {
    match name.kind {
        Kind::File => read_file(rt, name.path, buf),
        Kind::Input => read_all(&mut rt.reader(), buf),
        Kind::Taken => Err(FileError::HasCommands),
        Kind::Read => Err(FileError::ReadAlready),
        Kind::TooLong => Err(FileError::Unreadable),
    }
}
