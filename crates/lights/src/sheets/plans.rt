// An engine's plan from an argument: -, first-last, or first-last/top-bottom.
use crate::cli::numbers::read_number;
use plan::EnginePlan;
use word::Address;

// A number above 16 bits is read as the greatest of them; both are past the memory (refusal 11).
const PAST_MEMORY: u32 = u16::MAX as u32;

fn read_address(number: &[u8]) -> Option<Address> {
    let n = read_number(number, PAST_MEMORY)?;
    Some(Address(u16::try_from(n).unwrap_or(u16::MAX)))
}

// Two addresses with a dash between.
fn read_range(argument: &[u8]) -> Option<(Address, Address)> {
    let mut ends = argument.splitn(2, |b| *b == b'-');
    Some((read_address(ends.next()?)?, read_address(ends.next()?)?))
}

pub fn read(argument: &[u8]) -> Option<EnginePlan> {
    if argument == b"-".as_slice() {
        return Some(EnginePlan::Unused);
    }
    let mut ranges = argument.splitn(2, |b| *b == b'/');
    let (first, last) = read_range(ranges.next()?)?;
    let Some(table) = ranges.next() else {
        return Some(EnginePlan::CodeOnly { first, last });
    };
    let (top, bottom) = read_range(table)?;
    Some(EnginePlan::CodeAndTable {
        first,
        last,
        top,
        bottom,
    })
}
