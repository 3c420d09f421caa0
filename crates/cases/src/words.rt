// Words, encoded and decoded. A line is a code, or an op's name and its operands in the order of the
// sheet line, up as 0 and A as 0; or `count`, and what codes are counted by.
mod counts;

use crate::names::{is_name, op_named};
use crate::numbers;
use crate::numbers::Base;
use crate::pieces::{first, rest};
use grammar::{OP_COUNT, op_lines};
use op_codec::{values_of, word_of};
use std::io;
use word::{EncodeError, Word};

// A word's op and its operands.
fn print_word(rt: &impl Print, w: Word) -> io::Result<()> {
    print!(rt; ": ")?;
    let values = values_of(w);
    let Some(op) = op_lines().get(usize::from(values[0])) else {
        return print!(rt; "undefined");
    };
    rt.write_all(op.name)?;
    for operand in values[1..].iter().take(op.form.len()) {
        print!(rt; " {operand}")?;
    }
    Ok(())
}

// The word's code, or its refusal as document 01 numbers it.
fn encoded(rt: &impl Print, w: Word) -> io::Result<()> {
    match encoder::encode(w) {
        Ok(code) => print!(rt; ": {code:04X}"),
        Err(EncodeError::OutsideField) => print!(rt; ": refused 22"),
        Err(EncodeError::UndefinedWord) => print!(rt; ": refused 13"),
    }
}

// The word of an op, with its operands in a text.
fn word_in(rt: &impl Print, op: u16, parts: &[u8]) -> io::Result<Word> {
    let (n, _) = numbers::read(rt, parts, Base::Decimal)?;
    let [first, second, third, fourth] = n.first_four(rt)?;
    Ok(word_of([op, first, second, third, fourth, 0, 0]))
}

pub fn command(rt: &impl Print, line: &[u8]) -> io::Result<()> {
    let name = first(line);
    if !is_name(name) {
        let n = numbers::number(rt, name, Base::Hex)?;
        let code = numbers::at_most(rt, n, 65_535)? as u16;
        return print_word(rt, decoder::decode(code));
    }
    if matches!(name, b"count") {
        return counts::command(rt, rest(line));
    }
    let op = match op_named(name) {
        Some(op) => op,
        // past the last, the undefined word's
        None if matches!(name, b"undefined") => OP_COUNT as u16,
        None => return print!(rt; ": unknown"),
    };
    encoded(rt, word_in(rt, op, rest(line))?)
}
