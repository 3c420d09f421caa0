// The names of files, as arguments give them.
use super::arguments::Arguments;
use std::env::Env;
use text_bytes::until;

// The most bytes that a name has.
pub const LONGEST: usize = 4096;

// So much of a longer name is printed.
const SHOWN: usize = 4000;

#[derive(Clone, Copy)]
pub enum Kind {
    File,
    // `-`: standard input
    Input,
    // `-`, where standard input has the commands
    Taken,
    // `-`, after standard input was read
    Read,
    // longer than any name
    TooLong,
}

// In place of a path that is too long its first bytes and `..` stand.
#[derive(Clone, Copy)]
pub struct Name<'a> {
    pub path: &'a [u8],
    pub kind: Kind,
}

impl<'a> Name<'a> {
    // Argument k, which is there, as a name in lent bytes; `dash` is what `-` is among the program's
    // arguments.
    pub fn take(
        rt: &impl Env,
        arguments: Arguments,
        k: usize,
        dash: Kind,
        bytes: &'a mut [u8; LONGEST],
    ) -> Name<'a> {
        let Ok(length) = arguments.take(rt, k, bytes) else {
            bytes[SHOWN..SHOWN + 2].copy_from_slice(b"..");
            return Name {
                path: &bytes[..SHOWN + 2],
                kind: Kind::TooLong,
            };
        };
        let path = until(bytes, length);
        let kind = match (path, arguments) {
            (b"-", Arguments::Program) => dash,
            (b"-", Arguments::Line(_)) => Kind::Taken,
            _ => Kind::File,
        };
        Name { path, kind }
    }
}
