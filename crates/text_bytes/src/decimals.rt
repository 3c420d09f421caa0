// Decimal numbers, read. No `parse`: it takes a plus sign and leading zeros.
ghost use Rattle.std.specs.Prelude.{◌≡◌};
ghost use Rattle.text.specs.Number.{read_number};
ghost use Rattle.text_bytes.specs.internal.Digits.{saturated};

use text::ValueError;

// The saturation limit: one more than the greatest number that is kept.
const TOO_LARGE: u64 = 1 << 32;

// The number of a text of digits where it is below TOO_LARGE, else TOO_LARGE; none where a byte is no digit.
fn number_of_digits(v: &[u8]) -> Option<u64>
    ensures { result ≡ saturated 0 v.now }
{
    let mut n = 0;
    for &b in v {
        if !b.is_ascii_digit() {
            return None;
        }
        // Digits are read on past it, since a later byte may be no digit.
        n = (n * 10 + u64::from(b - b'0')).min(TOO_LARGE);
    }
    Some(n)
}

// The number that a text stands for, where it is at most `most`.
pub fn read_decimal(v: &[u8], most: u32) -> Result<u32, ValueError>
    ensures { result ≡ read_number most v.now }
{
    if let [] | [b'0', _, ..] = v {
        return Err(ValueError::Malformed);
    }
    let Some(n) = number_of_digits(v) else {
        return Err(ValueError::Malformed);
    };
    if n > u64::from(most) {
        return Err(ValueError::Outside);
    }
    Ok(n as u32)
}
