// The outputs' mean levels over time, column by column. No column has 4,398,046,511,104 beats, which
// is 2 to the power of 42, so that the sum of a column's levels fits.
ghost use Rattle.std.specs.Prelude.{◌≡◌, ◌+◌, ◌*◌, ◌<◌, ◌≤◌, All};

use super::names::OUTPUTS;
use super::span::{IN_A_CURVE, Span};
use machine::{Chip, Output};
use std::array;

// The sums of the outputs' levels over so many beats.
#[derive(Clone, Copy)]
struct Sums {
    sums: [u64; OUTPUTS],
    beats: u64,
    ghost beats_bound: { beats ≤ 4398046511104 },
    ghost sums_bound: { All (λ sum. sum ≤ 255 * beats) sums },
}

// The mean of a sum of levels, rounded up, so that only darkness is 0.
fn mean(sum: u64, beats: u64) -> u8
    requires { (1 ≤ beats) × (sum ≤ 255 * beats) }
{
    sum.div_ceil(beats) as u8
}

impl Sums {
    // Over no beats.
    fn new() -> Sums
        ensures { result.beats ≡ 0 }
    {
        Sums {
            sums: [0; OUTPUTS],
            beats: 0,
        }
    }

    // With a beat's levels added.
    fn add(self, outputs: [Output; OUTPUTS]) -> Sums
        requires { self.beats < 4398046511104 }
        ensures { result.beats ≡ self.beats + 1 }
    {
        let before = self.sums;
        let sums = array::from_fn(|k| before[k] + u64::from(outputs[k].level));
        Sums {
            sums,
            beats: self.beats + 1,
        }
    }

    // The outputs' means.
    fn means(self) -> [u8; OUTPUTS] {
        // without a beat it stays dark
        if self.beats == 0 {
            return [0; OUTPUTS];
        }
        let sums = self.sums;
        let beats = self.beats;
        array::from_fn(|k| mean(sums[k], beats))
    }
}

// The chip after the beats of a column, and the sums over them.
#[derive(Clone, Copy)]
struct Column {
    chip: Chip,
    sums: Sums,
}

// The column from a beat, before which the chip is given, to another.
fn column_of(m: Chip, first: u64, end: u64) -> Column
    requires { (first ≤ 4398046511104) × (end ≤ 4398046511104) }
{
    let mut after = m;
    let mut sums = Sums::new();
    // the proof names the beat
    for beat in first..end {
        let t = chip::tick(after, false);
        after = t.chip;
        let outputs = after.outputs;
        sums = sums.add(outputs);
    }
    Column { chip: after, sums }
}

// A row of levels for each output; the first `columns` of a row are in use, since nothing is allocated.
#[derive(Drop)]
pub struct Levels {
    pub rows: [[u8; IN_A_CURVE]; OUTPUTS],
    pub columns: usize,
    ghost columns_bound: { columns ≤ 480 },
}

fn put_means(rows: &mut [[u8; IN_A_CURVE]; OUTPUTS], i: usize, means: [u8; OUTPUTS])
    requires { i < 480 }
{
    for (row, mean) in rows.iter_mut().zip(means) {
        row[i] = mean;
    }
}

impl Levels {
    // The levels in a picture of the beats after a chip.
    pub(super) fn sample(m: Chip, span: Span) -> Levels
        ensures { result.columns ≡ span.columns }
    {
        let mut rows = [[0; IN_A_CURVE]; OUTPUTS];
        let mut after = chip::run(m, span.from).map_or(m, |ran| ran.chip);
        let mut first = 0;
        // by a column's number, which says where its beats end, and is its place in each row
        for i in 0..span.columns {
            let end = span.column_end(i);
            let column = column_of(after, first, end);
            let sums = column.sums;
            put_means(&mut rows, i, sums.means());
            after = column.chip;
            first = end;
        }
        Levels {
            rows,
            columns: span.columns,
        }
    }
}
