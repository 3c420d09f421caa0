// The chip's state, as lines of pairs.
use crate::sentences::filling::put_numbers;
use machine::{Chip, Engine, Output};
use text_bytes::Writer;
use word::WORDS;

const CHIP: &[u8] = b"chip enable=% c=% d=% page=%\n";

const ENGINE: &[u8] = b"engine=% mode=% run=% start=% pc=% a=% b=% mask=% ";

const POSITION: &[u8] = b"top=% bottom=% index=% pending=% interrupt=% fault=% midword=% ";

fn settings(number: u32, e: Engine) -> [u32; 8] {
    [
        number,
        u32::from(e.mode.bits()),
        u32::from(e.exec.bits()),
        u32::from(e.start.0),
        u32::from(e.pc.0),
        u32::from(e.a),
        u32::from(e.b),
        u32::from(e.mask),
    ]
}

fn position(e: Engine) -> [u32; 7] {
    let table = e.table;
    let progress = e.progress;
    [
        u32::from(table.top.0),
        u32::from(table.bottom.0),
        u32::from(table.index.0),
        u32::from(e.pending),
        u32::from(e.interrupt),
        u32::from(e.fault),
        u32::from(progress.is_mid_word()),
    ]
}

// The counts that aren't 0, and the end of the line.
fn put_counts(w: &mut Writer, counts: [u8; WORDS]) {
    w.put_bytes(b"counts=");
    if counts.iter().all(|&count| count == 0) {
        return w.put_bytes(b"none\n");
    }
    let mut before: &[u8] = b"";
    for (address, &count) in counts.iter().enumerate() {
        if count != 0 {
            w.put_bytes(before);
            w.put_decimal(address as u32);
            w.put_byte(b':');
            w.put_decimal(u32::from(count));
            before = b",";
        }
    }
    w.put_byte(b'\n');
}

fn put_engine(w: &mut Writer, number: u32, e: Engine) {
    let counts = e.loops;
    put_numbers(w, ENGINE, &settings(number, e));
    put_numbers(w, POSITION, &position(e));
    put_counts(w, counts);
}

// D1 to D9, then the GPO.
fn put_outputs(w: &mut Writer, outputs: [Output; 10]) {
    let mut before: &[u8] = b"outputs=";
    for output in outputs {
        w.put_bytes(before);
        w.put_decimal(u32::from(output.level));
        before = b",";
    }
    w.put_byte(b'\n');
}

pub fn put_chip(w: &mut Writer, m: Chip) {
    let engines = m.engines;
    let outputs = m.outputs;
    let common = [
        u32::from(m.enabled),
        u32::from(m.c),
        u32::from(m.d),
        u32::from(m.page),
    ];
    put_numbers(w, CHIP, &common);
    for (number, engine) in (1..=3).zip(engines) {
        put_engine(w, number, engine);
    }
    put_outputs(w, outputs);
}
