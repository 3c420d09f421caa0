// A program loaded into a new chip by register writes.
ghost use Rattle.std.specs.Prelude.{◌≤◌};

use super::checking::accepted;
use crate::cli::names::Name;
use crate::cli::status::Status;
use crate::sentences::say::{Message, line_of};
use crate::sentences::templates;
use machine::Chip;
use plan::{EnginePlan, Plan};
use std::rt::Files;
use word::WORDS;

const CONTROL: u16 = 0x00;

const MODES: u16 = 0x01;

const STARTS: u16 = 0x4C;

const PAGE: u16 = 0x4F;

const MEMORY: u16 = 0x50;

// bit 6 of the control register
const ENABLE: u8 = 64;

// the three engines' modes in one byte: all to load
const ALL_LOAD: u8 = 21;

// A burst of the loading. No accepted program's is refused; if one is, the program stops and says so.
fn burst(m: Chip, address: u16, bytes: &[u8]) -> Result<Chip, Message> {
    chip::burst(m, address, bytes).map_err(|_| line_of(
        Status::Lost,
        templates::NOTHING,
        templates::LOADING_REFUSED,
    ))
}

// A burst of one byte.
fn write(m: Chip, address: u16, byte: u8) -> Result<Chip, Message> {
    burst(m, address, &[byte])
}

// A page's sixteen words, the high byte of each first.
fn with_page(m: Chip, page: u8, words: &[u16]) -> Result<Chip, Message> {
    let mut bytes = [0u8; 32];
    for (pair, word) in bytes.chunks_exact_mut(2).zip(words) {
        pair.copy_from_slice(&word.to_be_bytes());
    }
    burst(write(m, PAGE, page)?, MEMORY, &bytes)
}

fn with_memory(m: Chip, image: &[u16; WORDS]) -> Result<Chip, Message> {
    (0..6u8)
        .zip(image.chunks_exact(16))
        .try_fold(m, |after, (page, words)| with_page(after, page, words))
}

// The first word of an engine. The addresses of an accepted program are below 256.
fn start_of(q: EnginePlan) -> u8 {
    q.code().map_or(0, |code| {
        let [_, low] = code.first.0.to_be_bytes();
        low
    })
}

// 2 for an engine that is used: run as a mode, free as a run setting.
fn run_bits_of(q: EnginePlan) -> u8
    ensures { result ≤ 2 }
{
    match q {
        EnginePlan::Unused => 0,
        _ => 2,
    }
}

// The used engines' twos, in the places of the modes and of the run settings.
fn run_bits(plan: Plan) -> u8
    ensures { result ≤ 42 }
{
    // a sum, whose bound follows from those of its parts; a fold's would need an invariant
    16 * run_bits_of(plan.engine1) + 4 * run_bits_of(plan.engine2) + run_bits_of(plan.engine3)
}

// The program in a new chip's memory, its engines in run mode and held.
fn loaded(plan: Plan, image: &[u16; WORDS]) -> Result<Chip, Message> {
    let enabled = write(chip::new_chip(), CONTROL, ENABLE)?;
    let loading = write(write(enabled, MODES, 0)?, MODES, ALL_LOAD)?;
    let filled = burst(
        with_memory(loading, image)?,
        STARTS,
        &plan.engines().map(start_of),
    )?;
    write(write(filled, MODES, 0)?, MODES, run_bits(plan))
}

// The plan of a file's sheet, and a chip with its program, the engines held.
pub fn held(rt: &(impl Files + Input), name: Name) -> Result<(Plan, Chip), Message> {
    let mut image = [0u16; WORDS];
    let plan = accepted(rt, name, &mut image)?;
    Ok((plan, loaded(plan, &image)?))
}

// A chip with the program of a file's sheet, the used engines free.
pub fn freed(rt: &(impl Files + Input), name: Name) -> Result<Chip, Message> {
    let (plan, m) = held(rt, name)?;
    write(m, CONTROL, ENABLE | run_bits(plan))
}
