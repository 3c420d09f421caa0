// What the program reaches of the system.
use std::env::Env;
use std::io;
use std::rt::Files;

// Where answers go: standard output, and standard error for bytes that need not be text.
pub trait Streams: Print {
    fn write_error(&self, bytes: &[u8]) -> io::Result<()>;
}

impl Streams for HostRuntime {
    fn write_error(&self, bytes: &[u8]) -> io::Result<()> {
        self.stderr().write_all(bytes)
    }
}

// With the arguments, the files and standard input.
pub trait Host: Streams + Env + Files + Input {}

impl Host for HostRuntime {}
