// The time scale below the rows: a plus under the column in which a round moment lies, and its time.
ghost use Rattle.std.specs.Prelude.{◌≤◌};

use super::marks::{Mark, Marks};
use super::span::{IN_A_ROW, LABEL, Span};
use super::times;
use text_bytes::Writer;

// A time ends here at the latest: a space and the s are still to come in a line of 72 bytes.
const LAST_END: usize = 70;

// In a whole row: so many times as long as +488.125 do not meet.
const MOST_MARKS: u64 = 7;

pub(super) fn put_spaces(w: &mut Writer, count: usize) {
    for _ in 0..count {
        w.put_byte(b' ');
    }
}

// A mark and a space, where both fit behind the mark before them and into the line, which begins at a
// place. Where a time doesn't fit into the line, no later one does, and the line ends before it.
fn put_mark(w: &mut Writer, begin: usize, mark: Mark) {
    let column = LABEL + mark.span.column_of(mark.place / 625);
    let end = w.at().saturating_sub(begin);
    let length = mark.time.length().saturating_add(1);
    if column < end || column.saturating_add(length) > LAST_END {
        return;
    }
    put_spaces(w, column - end);
    w.put_byte(b'+');
    mark.time.put(w);
    w.put_byte(b' ');
}

pub(super) fn put_scale(w: &mut Writer, span: Span)
    requires { span.columns ≤ 66 }
{
    let end = times::moment_of(span.end());
    // a short picture has a part of a row: each column that isn't there would have a beat
    let row = u64::from(span.beats) + (IN_A_ROW - span.columns) as u64;
    let begin = w.at();
    put_spaces(w, LABEL);
    for mark in Marks::new(span, end, row, MOST_MARKS) {
        put_mark(w, begin, mark);
    }
    w.put_bytes(b"s\n");
}
