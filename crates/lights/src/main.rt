// The program `lights`: sheets, words and a simulated chip at the command line. What decides stands in
// the libraries; this program reads, asks them and prints.
#![tactic(auto)]

mod bench;
mod cli;
mod pictures;
mod sentences;
mod sheets;
mod texts;

use cli::status::Status;
use std::fs::File;
use std::io::Write;
use std::process::ExitCode;
use std::rt::Files;
use std::{fs, io};

// Descriptor 3, by a name that it has only while it is open.
const STATUS: &str = "/proc/self/fd/3";

// Opening the name a second time would make a descriptor writable that isn't, so its own permissions
// are asked first.
fn put_status(rt: &impl Files, digit: u8) -> io::Result<()> {
    if fs::symlink_metadata(rt, STATUS)?.permissions().readonly() {
        return Ok(());
    }
    let mut file = File::options().append(true).open(rt, STATUS)?;
    file.write_all(&[digit])
}

// What a shell gives as the status of a program that the signal SIGPIPE ends, which a Rattle program ignores.
const BROKEN_PIPE: u8 = 141;

// The exit status goes to descriptor 3 as a digit, where the script takes it up. Where that isn't open,
// nothing takes it up.
fn main(rt: HostRuntime) -> ExitCode {
    let digit = match cli::serving::run(&rt) {
        Status::Done => b'0',
        Status::Refused => b'1',
        Status::Failed | Status::Lost => b'2',
        Status::Unread => return ExitCode::from(BROKEN_PIPE),
    };
    let _ = put_status(&rt, digit);
    ExitCode::SUCCESS
}
