// Plays a script, the standard input, on the libraries: words, plans, sheets and chips. Writes each
// line of the script, with the answers of what was called.
#![tactic(auto)]

mod chips;
mod names;
mod numbers;
mod pieces;
mod plans;
mod script;
mod sheets;
mod words;

ghost use Rattle.std.specs.Prelude.{◌≤◌, length, IfOk};

use std::io;
use std::io::Read;

// Reads until the buffer is full or the input ends; how many bytes that is. A `for` has no use here: how
// far a read goes is known only after it. Each program has its own, since their errors differ.
fn read_full(input: &mut impl Read, buf: &mut [u8]) -> io::Result<usize>
    ensures { IfOk result (λ n. n ≤ length buf.new) }
{
    let mut end = 0;
    while end < buf.len() {
        let n = input.read(&mut buf[end..])?;
        if n == 0 {
            break;
        }
        end += n;
    }
    Ok(end)
}

fn main(rt: HostRuntime) -> io::Result<()> {
    let mut buf = [0u8; 131072];
    let n = read_full(&mut rt.reader(), &mut buf)?;
    if n == buf.len() {
        return println!(rt; "the script is too long");
    }
    let mut sheet = [0u8; 8192];
    script::play(&rt, &buf[..n], &mut sheet)
}
