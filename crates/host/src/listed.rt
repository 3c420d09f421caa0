// The register at an address.
ghost use Rattle.std.specs.Prelude.{not, ◌≡◌};
ghost use Rattle.word.specs.Profile.{LP5523};
ghost use Rattle.machine.specs.Registers.{register_at};
ghost use Rattle.machine.specs.Burst.{is_unlisted};

use machine::Register;

#[tactic(auto, using(crate::proofs::Addresses::output_at, crate::proofs::Addresses::start_at, crate::proofs::Addresses::memory_at, crate::proofs::Addresses::none_at), unfolding(machine::specs::Registers::register_at))]
pub(super) fn register_at(address: u16) -> Register
    ensures { result ≡ register_at LP5523 address }
{
    match address {
        0x00 => Register::Control,
        0x01 => Register::Modes,
        0x16..=0x1E => Register::OutputLevel(address - 0x16),
        0x3C => Register::VariableD,
        0x4C..=0x4E => Register::Start(address - 0x4C),
        0x4F => Register::Page,
        0x50..=0x6F => Register::Memory(address - 0x50),
        _ => Register::Unlisted,
    }
}

// Whether an address is that of a register.
pub(super) fn is_listed(address: u16) -> bool
    ensures { result ≡ not (is_unlisted (register_at LP5523 address)) }
{
    !matches!(register_at(address), Register::Unlisted)
}
