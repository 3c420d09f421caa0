// show: a row of shades for each output, time from left to right, with a scale below.
use super::levels::Levels;
use super::names::NAMES;
use super::scale;
use super::span::{IN_A_ROW, LABEL, Span};
use crate::sheets::runs::View;
use text_bytes::Writer;

// From dark to full. A table, since the characters' codes have no order of their own.
const SHADES: [u8; 10] = *b" .:-=+*#%@";

// An output's name, spaces and a bar.
fn put_label(w: &mut Writer, name: &[u8]) {
    w.put_bytes(name);
    scale::put_spaces(w, (LABEL - 1).saturating_sub(name.len()));
    w.put_byte(b'|');
}

// An output's label, its shades and a bar.
fn put_row(w: &mut Writer, name: &[u8], levels: &[u8]) {
    put_label(w, name);
    for &level in levels {
        // ten shades from dark to full, rounded up
        let shade = (usize::from(level) * 9).div_ceil(255);
        w.put_byte(SHADES[shade]);
    }
    w.put_bytes(b"|\n");
}

pub fn show(w: &mut Writer, view: View) {
    let span = Span::new(view.from, view.beats, IN_A_ROW);
    let levels = Levels::sample(view.chip, span);
    for (name, row) in NAMES.iter().zip(&levels.rows) {
        put_row(w, name, &row[..levels.columns]);
    }
    scale::put_scale(w, span);
}
