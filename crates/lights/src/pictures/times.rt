// Moments are counted from beat 0 in tenths of a millisecond, so 10,000 of them are a second, which
// is 2048 beats; 625 are 128 beats. Two numbers of 32 bits make at most 8,589,934,590 beats, which
// is below 50,000,000,000 moments.
ghost use Rattle.std.specs.Prelude.{◌+◌, ◌*◌, ◌<◌, ◌≤◌};

use text_bytes::Writer;

const SECOND: u64 = 10_000;

// The first moment that is not before a beat.
pub(super) fn moment_of(beat: u64) -> u64
    requires { beat ≤ 8589934590 }
    ensures { (beat * 625 ≤ result * 128) × (result * 128 < beat * 625 + 128) × (result ≤ 50000000000) }
{
    (beat * 625).div_ceil(128)
}

// A moment that is a multiple of a unit, which is a power of ten.
#[derive(Clone, Copy)]
pub struct Time {
    pub moment: u64,
    pub unit: u64,
    ghost moment_bound: { moment ≤ 50000000000 },
    ghost unit_bound: { 1 ≤ unit },
}

impl Time {
    // In seconds, with as many digits as a multiple of the unit needs.
    pub(super) fn put(self, w: &mut Writer) {
        w.put_decimal((self.moment / SECOND) as u32);
        if self.unit >= SECOND {
            return;
        }
        w.put_byte(b'.');
        for place in [1000, 100, 10, 1] {
            if place >= self.unit {
                w.put_byte(b'0' + (self.moment / place % 10) as u8);
            }
        }
    }

    // How many bytes that is.
    pub(super) fn length(self) -> usize {
        let mut w = Writer::new(&mut []);
        self.put(&mut w);
        w.at()
    }
}
