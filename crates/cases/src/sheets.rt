// Sheets and op lines, read and written. A line is a command's name, and after a space what it needs.
mod lent;
mod ops;
mod program;
mod reading;
mod writing;

use crate::numbers;
use crate::pieces::{first, rest};
use plan::{EnginePlan, Plan};
use std::io;
use text::LINE_FEED;
use text_bytes::{Writer, until};
use word::WORDS;

// What the commands change.
#[derive(Drop)]
pub struct Sheets<'a> {
    // lent bytes, how many of them are the sheet's, and how many `back` keeps: no `Writer`, since `back` may
    // also go forward, to bytes that a shorter sheet has left
    sheet: &'a mut [u8],
    end: usize,
    kept: usize,
    // words lent to the reader
    words: usize,
    // bytes lent to the writer
    room: usize,
    // the program for the writer: its plan, its words, and how many of them are lent
    plan: Plan,
    image: [u16; 100],
    length: usize,
}

impl<'a> Sheets<'a> {
    pub fn new(sheet: &'a mut [u8]) -> Sheets<'a> {
        Sheets {
            sheet,
            end: 0,
            kept: 0,
            words: WORDS,
            room: 8192,
            plan: Plan {
                engine1: EnginePlan::Unused,
                engine2: EnginePlan::Unused,
                engine3: EnginePlan::Unused,
            },
            image: [0; 100],
            length: WORDS,
        }
    }

    // The sheet's text, as far as the lent bytes reach.
    fn text(&self) -> &[u8] {
        until(self.sheet, self.end)
    }

    // Adds bytes to the sheet.
    fn part(&mut self, bytes: &[u8]) {
        let mut w = Writer::starting_at(self.sheet, self.end);
        w.put_bytes(bytes);
        self.end = w.at();
    }

    // Adds a line to the sheet.
    fn line(&mut self, bytes: &[u8]) {
        self.part(bytes);
        self.part(&[LINE_FEED]);
    }

    // Adds the same line, so many times.
    fn lines(&mut self, count: u32, bytes: &[u8]) {
        for _ in 0..count {
            self.line(bytes);
        }
    }

    pub fn command(&mut self, rt: &impl Print, line: &[u8]) -> io::Result<()> {
        let parts = rest(line);
        match first(line) {
            // the sheet: emptied, kept as it is, set to the end that was kept, or with more bytes at its end
            b"sheet" => self.end = 0,
            b"keep" => self.kept = self.end,
            b"back" => self.end = self.kept,
            b"line" => self.line(parts),
            b"lines" => self.lines(numbers::decimal(rt, first(parts), 200)?, rest(parts)),
            b"part" => self.part(parts),
            b"byte" => self.part(&[numbers::decimal(rt, parts, 255)? as u8]),
            // what is lent: words to the reader, words and bytes to the writer
            b"words" => self.words = numbers::decimal(rt, parts, 100)? as usize,
            b"image" => self.length = numbers::decimal(rt, parts, 100)? as usize,
            b"room" => self.room = numbers::decimal(rt, parts, 8192)? as usize,
            // the program for the writer, where no sheet says it
            b"plan" => self.plan(rt, parts)?,
            b"word" => self.word(rt, parts)?,
            // calls, and what they gave
            b"read" => self.read(rt)?,
            b"program" => self.print(rt)?,
            b"write" => self.write(rt)?,
            b"show" => self.show(rt)?,
            b"op" => ops::read(rt, parts)?,
            b"code" => ops::write(rt, numbers::decimal(rt, parts, 65_535)? as u16, self.room)?,
            _ => print!(rt; ": unknown")?,
        }
        Ok(())
    }
}
