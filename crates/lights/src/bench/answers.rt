// A line of the bench, answered. Each answer takes the runtime and the chip: in one value they would
// need a type with a parameter and a lifetime.
use super::bursts::{BurstError, read_burst};
use super::state::put_chip;
use crate::cli::numbers::{TOO_MANY, read_number};
use crate::cli::output;
use crate::cli::output::{ANSWER, Stream, made, tell, write_bytes};
use crate::cli::serving::{Lines, Talk};
use crate::cli::status::Status;
use crate::cli::system::Streams;
use crate::sentences::say::{Message, Say, say_only, say_with};
use crate::sentences::{calls, templates};
use crate::sheets::reading::write_words;
use machine::{CallError, Chip};
use text::SPACE;
use text_bytes::{Writer, after_part, from, part_at};

// The chip after a command of the bench, and how the command ended.
fn after(chip: Chip, status: Status) -> Talk {
    Talk::wants(Lines::Bench(chip), status)
}

fn told(rt: &impl Streams, m: Chip, body: Say) -> Talk {
    let message = Message {
        status: Status::Done,
        head: say_only(templates::NOTHING),
        body,
        quote: None,
    };
    after(m, tell(rt, Stream::Output, message))
}

fn wrong(rt: &impl Streams, m: Chip, template: &'static [u8]) -> Talk {
    after(m, output::wrong(rt, template))
}

fn refused(rt: &impl Streams, m: Chip, error: CallError) -> Talk {
    after(
        m,
        tell(
            rt,
            Stream::Output,
            calls::of_error(templates::REFUSED, error),
        ),
    )
}

fn digit(b: bool) -> u8 {
    b'0' + u8::from(b)
}

// A beat and a burst are asked most often, so their answers are made without a template.
fn beat(rt: &impl Streams, m: Chip, pulse: bool) -> Talk {
    let t = chip::tick(m, pulse);
    let chip = t.chip;
    let [one, two, three] = t.ended.map(digit);
    let mut out = [0u8; 18];
    let mut w = Writer::new(&mut out);
    w.put_bytes(b"pin=");
    w.put_byte(digit(t.pin));
    w.put_bytes(b" words=");
    w.put_bytes(&[one, b',', two, b',', three, b'\n']);
    after(chip, made(rt, &w))
}

fn written(rt: &impl Streams, m: Chip, first: u16, bytes: &[u8]) -> Talk {
    match chip::burst(m, first, bytes) {
        Ok(chip) => after(chip, write_bytes(rt, Stream::Output, b"ok\n", Status::Done)),
        Err(error) => refused(rt, m, error),
    }
}

fn burst(rt: &impl Streams, m: Chip, numbers: &[u8]) -> Talk {
    // a line has at most 65535 bytes, so no more numbers than this
    let mut bytes = [0u8; 32768];
    match read_burst(numbers, &mut bytes) {
        Ok(read) => written(rt, m, read.first, read.bytes),
        Err(BurstError::Malformed) => wrong(rt, m, templates::NO_BURST),
        Err(BurstError::NoRegister) => wrong(rt, m, templates::NO_REGISTER),
        Err(BurstError::NoByte) => wrong(rt, m, templates::NO_BYTE),
    }
}

fn run(rt: &impl Streams, m: Chip, number: &[u8]) -> Talk {
    // a let-else, since what is given is a Talk
    let Some(beats) = read_number(number, TOO_MANY) else {
        return wrong(rt, m, templates::NO_RUN);
    };
    match chip::run(m, beats) {
        Ok(r) => told(rt, r.chip, calls::counts(r.beats, r.words, false)),
        Err(error) => refused(rt, m, error),
    }
}

fn interrupts(rt: &impl Streams, m: Chip) -> Talk {
    let r = chip::read_interrupts(m);
    let chip = r.chip;
    let flags = r.flags.map(u32::from);
    told(rt, chip, say_with(templates::INTERRUPTS, &flags))
}

fn state(rt: &impl Streams, m: Chip) -> Talk {
    let mut out = [0u8; ANSWER];
    let mut w = Writer::new(&mut out);
    put_chip(&mut w, m);
    after(m, made(rt, &w))
}

fn memory(rt: &impl Streams, m: Chip) -> Talk {
    let words = m.memory;
    after(m, write_words(rt, &words))
}

// A line with more than a command's name.
fn with_more(rt: &impl Streams, m: Chip, line: &[u8]) -> Talk {
    let rest = from(line, after_part(line, 0, SPACE));
    match part_at(line, 0, SPACE) {
        b"burst" => burst(rt, m, rest),
        b"run" => run(rt, m, rest),
        b"beat" | b"interrupts" | b"state" | b"memory" | b"help" => {
            wrong(rt, m, templates::NOTHING_BEHIND)
        }
        _ => wrong(rt, m, templates::NO_BENCH_COMMAND),
    }
}

// One line's command on a chip.
pub fn answer(rt: &impl Streams, m: Chip, line: &[u8]) -> Talk {
    match line {
        b"beat" => beat(rt, m, false),
        b"beat pulse" => beat(rt, m, true),
        b"interrupts" => interrupts(rt, m),
        b"state" => state(rt, m),
        b"memory" => memory(rt, m),
        b"help" => told(rt, m, say_only(templates::BENCH_HELP)),
        _ => with_more(rt, m, line),
    }
}
