// The time axis: a line at each round moment, and its time below.
use super::marks::{Mark, Marks};
use super::span::Span;
use super::{patterns, pixels};
use crate::sentences::filling::put_numbers;
use text_bytes::Writer;

// Steps from end to end at most; there is a mark more where both ends have one.
const MOST_STEPS: u64 = 9;

fn put_mark(w: &mut Writer, mark: Mark) {
    let x = pixels::across(mark.place, u64::from(mark.span.beats) * 625);
    put_numbers(w, patterns::MARK, &[x, x]);
    mark.time.put(w);
    w.put_bytes(patterns::TEXT_END);
}

pub(super) fn put_axis(w: &mut Writer, span: Span) {
    // after the last moment that is not after the last beat's end
    let end = span.end() * 625 / 128 + 1;
    for mark in Marks::new(span, end, u64::from(span.beats), MOST_STEPS) {
        put_mark(w, mark);
    }
    w.put_bytes(patterns::AXIS);
}
