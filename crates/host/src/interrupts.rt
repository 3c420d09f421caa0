// The interrupt read gives the three interrupt flags and clears them.
ghost use Rattle.std.specs.Prelude.{false, map, ◌≡◌};
ghost use Rattle.machine.specs.Parts.{each, with_interrupt};
ghost use Rattle.machine.specs.Interrupts.{read_of};

use machine::{Chip, Engine, Interrupts};

fn lowered(mut e: Engine) -> Engine
    ensures { result ≡ with_interrupt false e }
{
    e.interrupt = false;
    e
}

fn flags_of(engines: [Engine; 3]) -> [bool; 3]
    ensures { result ≡ map (λ (e : Engine). e.interrupt) engines }
{
    engines.map(|e| e.interrupt)
}

fn all_lowered(engines: [Engine; 3]) -> [Engine; 3]
    ensures { result ≡ each (λ i e. with_interrupt false e) 0 engines }
{
    engines.map(lowered)
}

#[tactic(auto, unfolding(machine::specs::Interrupts::read_of))]
pub fn read_interrupts(mut chip: Chip) -> Interrupts
    ensures { result ≡ read_of chip }
{
    let flags = flags_of(chip.engines);
    chip.engines = all_lowered(chip.engines);
    Interrupts { chip, flags }
}
