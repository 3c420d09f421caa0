// The marks of a time scale, at round moments.
ghost use Rattle.std.specs.Prelude.{◌+◌, ◌-◌, ◌*◌, ◌≤◌};
ghost use Rattle.std.specs.Iterator.{at_most};

use super::span::Span;
use super::steps::Step;
use super::times;
use super::times::Time;

// A mark, and where it lies in the picture: so many 625ths of a beat from its begin.
#[derive(Clone, Copy)]
pub struct Mark {
    pub span: Span,
    pub time: Time,
    pub place: u64,
    ghost place_bound: { place ≤ span.beats * 625 },
}

// The first mark, and the step to the next ones.
#[derive(Clone, Copy)]
struct First {
    moment: u64,
    step: Step,
}

// The first mark from a beat on and before a moment. The step is the finest of which `most` reach as far
// as so many beats; a finer one where this has no mark.
fn first_of(from: u32, end: u64, beats: u64, most: u64) -> First
    requires { (beats ≤ 8589934590) × (1 ≤ most) × (most ≤ 9) }
    ensures { from * 625 ≤ result.moment * 128 }
{
    let begin = times::moment_of(u64::from(from));
    let length = times::moment_of(beats);
    let mut step = Step { size: 1, unit: 1 };
    let mut first = First {
        moment: begin,
        step,
    };
    // no index is counted: the step grows until few enough reach as far
    while step.size * most < length {
        step = step.coarser();
        let moment = begin.next_multiple_of(step.size);
        if moment < end {
            first = First { moment, step };
        }
    }
    first
}

// The marks from one on and before a moment.
#[derive(Clone, Copy, Drop)]
pub struct Marks {
    span: Span,
    next: u64,
    end: u64,
    step: Step,
    ghost begin_bound: { span.from * 625 ≤ next * 128 },
    ghost end_bound: { end * 128 ≤ (span.from + span.beats) * 625 + 128 },
}

impl Marks {
    // Those of a picture, before a moment: of so many beats, at most so many.
    pub(super) fn new(span: Span, end: u64, beats: u64, most: u64) -> Marks
        requires most_bound { (beats ≤ 8589934590) × (1 ≤ most) × (most ≤ 9) }
        requires end_bound { end * 128 ≤ (span.from + span.beats) * 625 + 128 }
    {
        let first = first_of(span.from, end, beats, most);
        Marks {
            span,
            next: first.moment,
            end,
            step: first.step,
        }
    }
}

impl Iterator for Marks {
    type Item = Mark;

    ghost remaining = { λ m. at_most (m.end - m.next) };

    fn next(&mut self) -> Option<Mark> {
        let span = self.span;
        let moment = self.next;
        if moment >= self.end {
            return None;
        }
        let step = self.step;
        *self = Marks {
            span,
            next: moment + step.size,
            end: self.end,
            step,
        };
        Some(Mark {
            span,
            time: Time {
                moment,
                unit: step.unit,
            },
            place: moment * 128 - u64::from(span.from) * 625,
        })
    }
}
