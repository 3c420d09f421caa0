// The beats that a picture shows, in columns as even as can be: beat b of them is in column
// b * columns / beats.
ghost use Rattle.std.specs.Prelude.{◌≡◌, ◌+◌, ◌*◌, ◌<◌, ◌≤◌};

// The bytes of a row's label.
pub const LABEL: usize = 5;

// The most columns of a row of shades: a line of 72 bytes less its label and its bar.
pub const IN_A_ROW: usize = 66;

// The most columns of a curve.
pub const IN_A_CURVE: usize = 480;

#[derive(Clone, Copy)]
pub struct Span {
    // the first beat, and how many there are
    pub from: u32,
    pub beats: u32,
    pub columns: usize,
    ghost columns_bound: { columns ≤ 480 },
}

impl Span {
    // At most so many columns: none has less than a beat.
    pub fn new(from: u32, beats: u32, most: usize) -> Span
        requires { most ≤ 480 }
        ensures { result.columns ≤ most }
    {
        Span {
            from,
            beats,
            columns: most.min(beats as usize),
        }
    }

    // The beat after the last.
    pub fn end(self) -> u64
        ensures { result ≡ self.from + self.beats }
    {
        u64::from(self.from) + u64::from(self.beats)
    }

    // The column that has this beat, counted from the first; without a beat, the first column.
    pub fn column_of(self, beat: u64) -> usize
        requires { beat ≤ self.beats }
        ensures { result ≤ 480 }
    {
        let columns = self.columns as u64;
        let beats = u64::from(self.beats);
        if beats == 0 {
            return 0;
        }
        (beat * columns / beats) as usize
    }

    // The beat, counted from the first, with which column i ends, and the next begins.
    pub fn column_end(self, i: usize) -> u64
        requires { i < self.columns }
        ensures { result ≤ 481 * 4294967295 }
    {
        let columns = self.columns as u64;
        (u64::from(self.beats) * (i as u64 + 1)).div_ceil(columns)
    }
}
