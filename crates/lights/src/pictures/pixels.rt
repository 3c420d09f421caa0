// Where things are in the drawing, in pixels.
ghost use Rattle.std.specs.Prelude.{◌≤◌};

// The left end of the curves, and how far they go.
const LEFT: u64 = 60;

const WIDTH: u64 = 960;

// The first lane's ground, a lane's height, and a full light's height in it.
pub const GROUND: usize = 92;

pub const LANE: usize = 40;

pub const FULL: u32 = 32;

// So much of a whole from left to right, to the nearest pixel.
pub(super) fn across(part: u64, whole: u64) -> u32
    requires { (part ≤ whole) × (whole ≤ 10000000000000) }
    ensures { result ≤ 1020 }
{
    if whole == 0 {
        return LEFT as u32;
    }
    (LEFT + (part * WIDTH + whole / 2) / whole) as u32
}
