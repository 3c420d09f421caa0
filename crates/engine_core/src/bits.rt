// Bits of a mask of outputs and of a trigger word.
ghost use Rattle.std.specs.Prelude.{◌<◌, ◌≡◌};
ghost use Rattle.machine.specs.Parts.{bit};

// The bit of the external trigger pin.
pub const PIN: usize = 5;

// Past the highest bit there is none.
pub fn has_bit(x: u16, j: usize) -> bool
    ensures { result ≡ bit x j }
{
    j < 16 && (x >> j) % 2 == 1
}
