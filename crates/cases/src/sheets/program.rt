// The program for the writer: given by its plan and its words, and printed so.
use super::Sheets;
use crate::numbers;
use crate::numbers::Base;
use crate::pieces::{first, rest};
use crate::plans::engine_plan;
use plan::EnginePlan;
use std::io;
use word::WORDS;

// How many addresses the plan of this name has; `-` passes with one, and a name that is no plan with five.
fn addresses(name: &[u8]) -> usize {
    match name {
        b"unused" => 0,
        b"-" => 1,
        b"code" => 2,
        b"table" => 4,
        _ => 5,
    }
}

// `unused`, `code` and two addresses, or `table` and four.
fn engine(rt: &impl Print, parts: &[u8]) -> io::Result<EnginePlan> {
    let (n, _) = numbers::read(rt, rest(parts), Base::Decimal)?;
    if addresses(first(parts)) != n.count() {
        print!(rt; " no such plan")?;
    }
    engine_plan(rt, &n)
}

fn print_engine(rt: &impl Print, q: EnginePlan) -> io::Result<()> {
    match q {
        EnginePlan::Unused => print!(rt; " unused,"),
        EnginePlan::CodeOnly { first, last } => print!(rt; " code {} {},", first.0, last.0),
        EnginePlan::CodeAndTable {
            first,
            last,
            top,
            bottom,
        } => print!(rt; " table {} {} {} {},", first.0, last.0, top.0, bottom.0),
    }
}

impl Sheets<'_> {
    // An engine's number and its plan.
    pub(super) fn plan(&mut self, rt: &impl Print, parts: &[u8]) -> io::Result<()> {
        let number = numbers::decimal(rt, first(parts), 3)?;
        let q = engine(rt, rest(parts))?;
        // Plan has a field for each engine, and none is set by its number
        match number {
            1 => self.plan.engine1 = q,
            2 => self.plan.engine2 = q,
            _ => self.plan.engine3 = q,
        }
        Ok(())
    }

    // An address and the word there.
    pub(super) fn word(&mut self, rt: &impl Print, parts: &[u8]) -> io::Result<()> {
        let at = numbers::decimal(rt, first(parts), 99)? as usize;
        self.image[at] = numbers::decimal(rt, rest(parts), 65_535)? as u16;
        Ok(())
    }

    // The words that are not 0.
    fn print_words(&self, rt: &impl Print) -> io::Result<()> {
        for (at, code) in self.image[..WORDS].iter().enumerate() {
            if *code != 0 {
                print!(rt; " {at}={code:04X}")?;
            }
        }
        Ok(())
    }

    // The plan and the words.
    pub(super) fn print(&self, rt: &impl Print) -> io::Result<()> {
        print!(rt; ":")?;
        for q in self.plan.engines() {
            print_engine(rt, q)?;
        }
        self.print_words(rt)
    }
}
