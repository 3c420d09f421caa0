// Beats one after another, for a single beat and for a run. `turn` has one call, so that the compiler inlines
// it.
ghost use Rattle.std.specs.Prelude.{◌≡◌, ◌+◌, ◌<◌, length, if◌then◌else◌};
ghost use Rattle.engine.specs.Parts.{Fixed, chip_of, spanned};
ghost use Rattle.engine.specs.Spans.{no_beat, span_of};

use super::acting::Acting;
use super::fetches::Program;
use super::idle::{all_idle, any_acts, idle};
use super::outputs::{held_bits, with_effect};
use super::pending::{receive, to_pin};
use crate::{Cores, Span};
use word::WORDS;

// From so many beats on, decoding all words first takes less time than decoding each as it is fetched.
const MANY: u32 = 32;

fn one_more(words: u32, ended: bool) -> u32
    requires { words < 4294967295 }
    ensures { result ≡ (if ended then words + 1 else words) }
{
    if ended { words + 1 } else { words }
}

// At most so many beats, without pulses, of a chip that is not stopped; it stops before a beat if no
// engine acts. An array that is lent doesn't tell its length, so the contract names that of the counts.
pub fn take_beats(
    start: Cores,
    d: u8,
    memory: &[u16; WORDS],
    levels: &mut [u8; 10],
    counts: &mut [[u8; WORDS]; 3],
    most: u32,
) -> Span<Cores>
    ensures { (f : Fixed) → f.d ≡ d → f.memory ≡ memory.now → length counts.old ≡ 3 → spanned f result levels.new counts.new ≡ span_of most (no_beat (chip_of f start levels.old counts.old)) }
{
    let program = Program::new(memory, most >= MANY);
    let Cores {
        mut c,
        engines: mut cores,
    } = start;
    let mut pin = false;
    let mut words = [0u32; 3];
    let mut beats: u32 = 0;
    // no `for`: it ends at the first beat before which no engine acts, and `beats` is part of the answer
    while beats < most && any_acts(&cores) {
        pin = false;
        if all_idle(&cores) {
            idle(&mut cores);
        } else {
            // by index: what an engine sends changes the others
            for i in 0..3 {
                let own = cores[i];
                let t = Acting { own, c, d }.turn(&program, &mut counts[i]);
                cores[i] = t.own;
                c = t.c;
                words[i] = one_more(words[i], t.ended);
                with_effect(levels, held_bits(&cores, own.mask, i), t.effect);
                receive(&mut cores, i, t.send);
                pin |= to_pin(t.send);
            }
        }
        beats += 1;
    }
    Span {
        after: Cores { c, engines: cores },
        pin,
        beats,
        words,
    }
}
