// decode and encode: words as op lines, and op lines as words.
use super::reading::write_words;
use crate::cli::numbers::read_hex;
use crate::cli::output::{ANSWER, Stream, made, tell, tell_only, wrong};
use crate::cli::status::{Status, worst};
use crate::cli::system::Streams;
use crate::sentences::{reader, templates};
use text::SPACE;
use text_bytes::Writer;

// A word's op line.
pub fn decode(rt: &impl Streams, word: &[u8]) -> Status {
    let Some(code) = read_hex(word) else {
        return wrong(rt, templates::NO_WORD);
    };
    let mut out = [0u8; ANSWER];
    let Ok(end) = op_codec::disassemble_word(code, &mut out) else {
        return tell_only(rt, templates::UNDEFINED);
    };
    let mut w = Writer::starting_at(&mut out, end);
    w.put_byte(b'\n');
    made(rt, &w)
}

// The words of a line, one after the other.
pub fn decode_line(rt: &impl Streams, line: &[u8]) -> Status {
    worst(line.split(|b| *b == SPACE).map(|word| decode(rt, word)))
}

// An op line's word.
pub fn encode(rt: &impl Streams, line: &[u8]) -> Status {
    match op_codec::assemble_line(line) {
        Ok(code) => write_words(rt, &[code]),
        Err(error) => tell(rt, Stream::Output, reader::of_op_line(line, error)),
    }
}
