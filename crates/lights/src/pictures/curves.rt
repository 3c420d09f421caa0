// svg: a curve for each output, time from left to right, with an axis below.
ghost use Rattle.std.specs.Prelude.{◌≤◌, length};

use super::levels::Levels;
use super::names::NAMES;
use super::span::{IN_A_CURVE, Span};
use super::xml::put_text;
use super::{axis, patterns, pixels};
use crate::sentences::filling::put_numbers;
use crate::sheets::runs::View;
use text_bytes::Writer;

// An output's levels, each from its column's left end on, where it is another than before.
fn put_levels(w: &mut Writer, levels: &[u8], ground: u32)
    requires { (length levels.now ≤ 480) × (32 ≤ ground) }
{
    let mut before = ground;
    for (i, &level) in levels.iter().enumerate() {
        // the height is rounded up, so that every light is seen
        let y = ground - (u32::from(level) * pixels::FULL).div_ceil(255);
        if y != before {
            let x = pixels::across(i as u64, levels.len() as u64);
            put_numbers(w, patterns::CHANGE, &[x, y]);
            before = y;
        }
    }
}

// An output's name, its ground and its curve.
fn put_lane(w: &mut Writer, name: &[u8], levels: &[u8], ground: u32)
    requires { (length levels.now ≤ 480) × (32 ≤ ground) }
{
    put_numbers(w, patterns::NAME, &[ground]);
    w.put_bytes(name);
    put_numbers(w, patterns::CURVE, &[ground, ground]);
    put_levels(w, levels, ground);
    put_numbers(w, patterns::CURVE_END, &[ground]);
}

fn put_head(w: &mut Writer, title: &[u8]) {
    w.put_bytes(patterns::TITLE);
    put_text(w, title);
    w.put_bytes(patterns::HEADING);
    put_text(w, title);
    w.put_bytes(patterns::TEXT_END);
}

pub fn svg(w: &mut Writer, view: View) {
    let span = Span::new(view.from, view.beats, IN_A_CURVE);
    let levels = Levels::sample(view.chip, span);
    put_head(w, view.path);
    axis::put_axis(w, span);
    for (k, (name, row)) in NAMES.iter().zip(&levels.rows).enumerate() {
        let ground = (pixels::GROUND + k * pixels::LANE) as u32;
        put_lane(w, name, &row[..levels.columns], ground);
    }
    w.put_bytes(patterns::END);
}
