// run, show and svg: so many beats of a sheet's program.
use super::loading;
use crate::bench::state::put_chip;
use crate::cli::files::LARGE;
use crate::cli::names::Name;
use crate::cli::output::made;
use crate::cli::status::Status;
use crate::cli::system::Host;
use crate::sentences::say::{Message, put_say};
use crate::sentences::{calls, templates};
use machine::{CallError, Chip, RunResult};
use text_bytes::Writer;

// So many beats of a chip, from one on. The path is that of its program's sheet.
#[derive(Clone, Copy)]
pub struct View<'a> {
    pub path: &'a [u8],
    pub chip: Chip,
    pub from: u32,
    pub beats: u32,
}

// What a run did, and the chip after it.
pub fn put_run(w: &mut Writer, view: View) {
    let r = chip::run(view.chip, view.beats).unwrap_or(RunResult {
        chip: view.chip,
        beats: 0,
        words: [0; 3],
    });
    let counts = calls::counts(r.beats, r.words, r.beats < view.beats);
    put_say(w, counts, b"", b"");
    w.put_byte(b'\n');
    put_chip(w, r.chip);
}

// What the command puts of the beats of a sheet's program, whose used engines run free.
pub fn run<F: FnOnce(&mut Writer, View)>(
    rt: &impl Host,
    name: Name,
    from: u32,
    beats: u32,
    put: F,
) -> Result<Status, Message>
    requires { F.IsAlwaysCallable put }
{
    if u64::from(from) + u64::from(beats) > u64::from(chip::MOST_BEATS) {
        return Err(calls::of_error(templates::REFUSED_FILE, CallError::TooManyBeats));
    }
    let view = View {
        path: name.path,
        chip: loading::freed(rt, name)?,
        from,
        beats,
    };
    let mut out = [0u8; LARGE];
    let mut w = Writer::new(&mut out);
    put(&mut w, view);
    Ok(made(rt, &w))
}
