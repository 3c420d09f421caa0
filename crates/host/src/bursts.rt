// A burst: refusals 1 and 2 first, then the bytes in order, each judged after those before it; one refusal
// undoes all.
ghost use Rattle.std.specs.Prelude.{not, ◌≡◌};
ghost use Rattle.word.specs.Profile.{LP5523};
ghost use Rattle.machine.specs.Reports.{burst_gives, write_report_of};
ghost use Rattle.machine.specs.Burst.{visited, some_unlisted, bytes_written, undone, burst_of};

use crate::listed::is_listed;
use crate::write::write;
use machine::{CallError, Chip};

// The parameters are those of `burst`. FFFFh is unlisted, so a burst of listed addresses ends before the range.
// A loop: what `all` promises of a zip is of its runs, and the proof that these are the burst's didn't close.
fn all_listed(first: u16, bytes: &[u8]) -> bool
    ensures { result ≡ not (some_unlisted LP5523 (visited first bytes.now)) }
{
    for (address, _) in (first..=u16::MAX).zip(bytes) {
        if !is_listed(address) {
            return false;
        }
    }
    true
}

// The bytes in order, up to the first refusal, which undoes those before it.
fn write_bytes(chip: Chip, first: u16, bytes: &[u8]) -> Result<Chip, CallError>
    ensures { burst_gives chip result ≡ undone chip (bytes_written LP5523 (visited first bytes.now) chip) }
{
    let mut changed = chip;
    for (address, &byte) in (first..=u16::MAX).zip(bytes) {
        changed = write(changed, address, byte)?;
    }
    Ok(changed)
}

pub fn burst(chip: Chip, first: u16, bytes: &[u8]) -> Result<Chip, CallError>
    ensures { write_report_of (burst_gives chip result) ≡ write_report_of (burst_of LP5523 first bytes.now chip) }
{
    if bytes.is_empty() {
        return Err(CallError::EmptyBurst);
    }
    if !all_listed(first, bytes) {
        return Err(CallError::UnlistedAddress);
    }
    write_bytes(chip, first, bytes)
}
