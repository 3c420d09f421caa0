// A script: a line `section NAME` says whose commands stand on the lines after it. A line that is
// empty or begins with '#' is no command.
use crate::chips::Chips;
use crate::pieces::{first, rest};
use crate::sheets::Sheets;
use crate::{plans, words};
use std::io;
use text::LINE_FEED;

#[derive(Clone, Copy, Debug, PartialEq, Eq)]
enum Section {
    Words,
    Plans,
    Sheets,
    Chips,
}

impl Section {
    fn named(name: &[u8]) -> Option<Section> {
        match name {
            b"words" => Some(Section::Words),
            b"plans" => Some(Section::Plans),
            b"sheets" => Some(Section::Sheets),
            b"chips" => Some(Section::Chips),
            _ => None,
        }
    }
}

// What a script changes.
#[derive(Drop)]
struct Player<'a> {
    section: Option<Section>,
    sheets: Sheets<'a>,
    chips: Chips,
}

impl Player<'_> {
    fn command(&mut self, rt: &impl Print, line: &[u8]) -> io::Result<()> {
        match self.section {
            Some(Section::Words) => words::command(rt, line),
            Some(Section::Plans) => plans::command(rt, line),
            Some(Section::Sheets) => self.sheets.command(rt, line),
            Some(Section::Chips) => self.chips.commands(rt, line),
            None => print!(rt; ": no such section"),
        }
    }

    fn answer(&mut self, rt: &impl Print, line: &[u8]) -> io::Result<()> {
        if line.is_empty() || line.starts_with(b"#") {
            return Ok(());
        }
        if matches!(first(line), b"section") {
            self.section = Section::named(rest(line));
            return Ok(());
        }
        self.command(rt, line)
    }
}

pub fn play(rt: &impl Print, script: &[u8], sheet: &mut [u8]) -> io::Result<()> {
    let mut player = Player {
        section: None,
        sheets: Sheets::new(sheet),
        chips: Chips::new(chip::new_chip()),
    };
    for ended in script.split_inclusive(|b| *b == LINE_FEED) {
        let line = ended.strip_suffix(b"\n").unwrap_or(ended);
        rt.write_all(line)?;
        player.answer(rt, line)?;
        println!(rt)?;
    }
    Ok(())
}
