// Plans, checked. A line is a case, its fields with semicolons between: a name; the ranges of engines
// 1, 2 and 3; words of the image after the address of the first of them, up to twice; how many words
// the image has, and what stands in the others.
use crate::numbers;
use crate::numbers::{Base, Numbers};
use crate::pieces::nth;
use plan::{EnginePlan, Plan};
use std::io;
use word::{Address, WORDS};

// By number: field 6 is needed before 4 and 5.
fn numbers_of(rt: &impl Print, line: &[u8], field: usize) -> io::Result<Numbers> {
    let (numbers, _) = numbers::read(rt, nth(line, field, b';'), Base::ByLength)?;
    Ok(numbers)
}

// No number is an unused engine, two are its code, four its code and its table; any other count is read as
// four.
pub fn engine_plan(rt: &impl Print, n: &Numbers) -> io::Result<EnginePlan> {
    let [first, last, top, bottom] = n.first_four(rt)?.map(Address);
    Ok(match n.count() {
        0 => EnginePlan::Unused,
        2 => EnginePlan::CodeOnly { first, last },
        _ => EnginePlan::CodeAndTable {
            first,
            last,
            top,
            bottom,
        },
    })
}

fn plan_of(rt: &impl Print, line: &[u8], field: usize) -> io::Result<EnginePlan> {
    engine_plan(rt, &numbers_of(rt, line, field)?)
}

// An image that may have a word too many.
type Image = [u16; WORDS + 1];

// The words after an address, put there and behind.
fn put(rt: &impl Print, image: &mut Image, n: &Numbers) -> io::Result<()> {
    let first = usize::from(n.wide(rt, 0)?);
    let words = n.after_first();
    for (word, &n) in image.iter_mut().skip(first).zip(words) {
        *word = numbers::wide(rt, n)?;
    }
    if words.len() > image.len().saturating_sub(first) {
        print!(rt; " no such word")?;
    }
    Ok(())
}

// How many words the image has: the chip's, where a case doesn't say it.
fn size(n: &Numbers) -> usize {
    if n.count() == 0 {
        return WORDS;
    }
    n.value(0) as usize
}

// The number, the engine and the address of the checker's answer, 0 for what document 01 doesn't give.
pub fn command(rt: &impl Print, line: &[u8]) -> io::Result<()> {
    let plan = Plan {
        engine1: plan_of(rt, line, 1)?,
        engine2: plan_of(rt, line, 2)?,
        engine3: plan_of(rt, line, 3)?,
    };
    let whole = numbers_of(rt, line, 6)?;
    let mut image = [whole.wide(rt, 1)?; WORDS + 1];
    put(rt, &mut image, &numbers_of(rt, line, 4)?)?;
    put(rt, &mut image, &numbers_of(rt, line, 5)?)?;
    let lent = image.get(..size(&whole)).unwrap_or(&image);
    let a = refusals::report_of(checker::check(plan, lent));
    print!(rt; ": {} {} {}", a.number, a.engine, a.address)
}
