// One byte to one address: what it answers, and the chip after it.
mod engines;
mod fields;
mod held;
mod judge;
mod states;
mod store;

ghost use Rattle.std.specs.Prelude.{[], ◌∷◌, ◌≡◌};
ghost use Rattle.word.specs.Profile.{LP5523};
ghost use Rattle.machine.specs.Reports.{burst_gives};
ghost use Rattle.machine.specs.Burst.{bytes_written};

use crate::listed::register_at;
use crate::write::judge::judge;
use crate::write::store::store;
use machine::{CallError, Chip};

// A struct of a chip and a byte would be taken apart again in each rule.
#[tactic(auto, using(crate::proofs::Addresses::exists_at), unfolding(machine::specs::Burst::bytes_written))]
pub(super) fn write(chip: Chip, address: u16, byte: u8) -> Result<Chip, CallError>
    ensures { burst_gives chip result ≡ bytes_written LP5523 (record { address = address; byte = byte } ∷ []) chip }
{
    let register = register_at(address);
    judge(chip, register, byte)?;
    Ok(store(chip, register, byte))
}
