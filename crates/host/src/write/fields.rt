// The fields of registers 00h and 01h.
ghost use Rattle.std.specs.Prelude.{[], ◌∷◌, ◌≡◌};
ghost use Rattle.machine.specs.Registers.{pair_of};

// The two bits of each engine in a byte.
pub(super) fn pairs_of(byte: u8) -> [u8; 3]
    ensures { result ≡ pair_of byte 0 ∷ (pair_of byte 1 ∷ (pair_of byte 2 ∷ [])) }
{
    [byte / 16 % 4, byte / 4 % 4, byte % 4]
}
