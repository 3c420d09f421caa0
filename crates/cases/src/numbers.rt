// The numbers of a line. One that can't be read or is too large is said in the output, and 0 stands
// for it.
ghost use Rattle.std.specs.Prelude.{◌≤◌, length, IfOk};

use crate::names::is_name;
use crate::pieces::{first, rest};
use std::io;

#[derive(Clone, Copy, Debug, PartialEq, Eq)]
pub enum Base {
    Decimal,
    Hex,
    // hexadecimal with four digits, decimal with others
    ByLength,
}

impl Base {
    fn radix(self, digits: usize) -> u32 {
        match self {
            Base::Hex => 16,
            Base::ByLength if digits == 4 => 16,
            Base::Decimal | Base::ByLength => 10,
        }
    }
}

// The most numbers that a line has.
pub const MOST: usize = 40;

// A line's numbers: so many of the values, of which there is a fixed number, since nothing is allocated.
#[derive(Clone, Copy)]
pub struct Numbers {
    values: [u32; MOST],
    count: usize,
    ghost room: { count ≤ 40 },
}

// The number of a digit, letters in capitals.
fn digit_of(b: u8, radix: u32) -> Option<u32> {
    match b {
        b'0'..=b'9' => Some(u32::from(b - b'0')),
        b'A'..=b'F' if radix == 16 => Some(u32::from(b - b'A') + 10),
        _ => None,
    }
}

fn number_of(digits: &[u8], radix: u32) -> Option<u32> {
    let mut n: u32 = 0;
    for b in digits {
        n = n.checked_mul(radix)?.checked_add(digit_of(*b, radix)?)?;
    }
    Some(n)
}

fn refuse(rt: &impl Print) -> io::Result<()> {
    print!(rt; " no such number")
}

// A number, or 0 where there is none, which is said.
fn or_refused(rt: &impl Print, n: Option<u32>) -> io::Result<u32> {
    if n.is_none() {
        refuse(rt)?;
    }
    Ok(n.unwrap_or(0))
}

pub fn number(rt: &impl Print, digits: &[u8], base: Base) -> io::Result<u32> {
    or_refused(rt, number_of(digits, base.radix(digits.len())))
}

pub fn at_most(rt: &impl Print, n: u32, most: u32) -> io::Result<u32>
    ensures { IfOk result (λ k. k ≤ most) }
{
    if n > most {
        refuse(rt)?;
        return Ok(0);
    }
    Ok(n)
}

pub fn byte(rt: &impl Print, n: u32) -> io::Result<u8> {
    Ok(at_most(rt, n, 255)? as u8)
}

pub fn wide(rt: &impl Print, n: u32) -> io::Result<u16> {
    Ok(at_most(rt, n, 65_535)? as u16)
}

// The decimal number of one part.
pub fn decimal(rt: &impl Print, part: &[u8], most: u32) -> io::Result<u32>
    ensures { IfOk result (λ k. k ≤ most) }
{
    let n = number(rt, part, Base::Decimal)?;
    at_most(rt, n, most)
}

impl Numbers {
    // One number more, where there is one and room for it.
    fn push(&mut self, rt: &impl Print, digits: &[u8], base: Base) -> io::Result<()> {
        if digits.is_empty() {
            return Ok(());
        }
        if self.count == MOST {
            return print!(rt; " too many numbers");
        }
        self.values[self.count] = number(rt, digits, base)?;
        self.count += 1;
        Ok(())
    }

    pub fn count(&self) -> usize
        ensures { result ≤ 40 }
    {
        self.count
    }

    pub fn all(&self) -> &[u32] {
        &self.values[..self.count]
    }

    // The numbers behind the first.
    pub fn after_first(&self) -> &[u32] {
        self.all().get(1..).unwrap_or(&[])
    }

    // The number at a place; 0 if there is none.
    pub fn value(&self, place: usize) -> u32 {
        self.values.get(place).copied().unwrap_or(0)
    }

    pub fn wide(&self, rt: &impl Print, place: usize) -> io::Result<u16> {
        wide(rt, self.value(place))
    }

    // The first four; 0 for those that aren't there. By a loop: `try_from_fn` with a closure that prints
    // isn't proved to be callable at each place.
    pub fn first_four(&self, rt: &impl Print) -> io::Result<[u16; 4]> {
        let mut wides = [0u16; 4];
        for (place, wide) in wides.iter_mut().enumerate() {
            *wide = self.wide(rt, place)?;
        }
        Ok(wides)
    }
}

// The numbers up to the next name, and the text from there on. A loop over what is left, since that is
// given back too.
pub fn read<'a, R: Print>(rt: &R, text: &'a [u8], base: Base) -> io::Result<(Numbers, &'a [u8])>
    ensures { IfOk result (λ r. length r.1.now ≤ length text.now) }
{
    let mut numbers = Numbers {
        values: [0; MOST],
        count: 0,
    };
    let mut parts = text;
    while !parts.is_empty() && !is_name(first(parts)) {
        numbers.push(rt, first(parts), base)?;
        parts = rest(parts);
    }
    Ok((numbers, parts))
}
