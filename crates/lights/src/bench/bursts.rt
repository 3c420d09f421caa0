// A burst, read from a line of the bench.
ghost use Rattle.std.specs.Prelude.{◌≤◌, IfOk};

use text::{SPACE, ValueError};
use text_bytes::{Writer, read_decimal, until};

#[derive(Clone, Copy)]
pub struct Burst<'a> {
    // the first register
    pub first: u16,
    pub bytes: &'a [u8],
}

#[derive(Clone, Copy, Debug, PartialEq, Eq)]
pub enum BurstError {
    // not decimal
    Malformed,
    // a register above 65535
    NoRegister,
    // a byte above 255
    NoByte,
}

// A number of at most so much; above that, this error.
#[tactic(auto, unfolding(text::specs::Number::read_number))]
fn read_at_most(part: &[u8], most: u32, above: BurstError) -> Result<u32, BurstError>
    ensures { IfOk result (λ n. n ≤ most) }
{
    read_decimal(part, most).map_err(|error| match error {
        ValueError::Outside => above,
        ValueError::Malformed => BurstError::Malformed,
    })
}

// A B B ..: the register, then the bytes, which are put into lent bytes.
pub fn read_burst<'a>(numbers: &[u8], bytes: &'a mut [u8]) -> Result<Burst<'a>, BurstError> {
    let mut parts = numbers.split(|&b| b == SPACE);
    let register = parts.next().unwrap_or(b"");
    let first = read_at_most(register, u32::from(u16::MAX), BurstError::NoRegister)?;
    let mut w = Writer::new(&mut *bytes);
    for part in parts {
        w.put_byte(read_at_most(part, u32::from(u8::MAX), BurstError::NoByte)? as u8);
    }
    let count = w.at();
    Ok(Burst {
        first: first as u16,
        bytes: until(bytes, count),
    })
}
