// Numbers of arguments and of the bench, read by the libraries' reader and never shortened.
use text::ValueError;

// More beats than a run takes: it refuses them, as it refuses every number above its limit.
pub const TOO_MANY: u32 = u32::MAX;

// A number above the greatest is read as that.
pub fn read_number(part: &[u8], greatest: u32) -> Option<u32> {
    match text_bytes::read_decimal(part, greatest) {
        Ok(n) => Some(n),
        Err(ValueError::Outside) => Some(greatest),
        Err(ValueError::Malformed) => None,
    }
}

// A word of four hexadecimal digits, in capitals or small letters.
pub fn read_hex(v: &[u8]) -> Option<u16> {
    if v.len() != 4 {
        return None;
    }
    let n = v.iter().try_fold(0u32, |n, b| {
        Some((n << 4) | char::from(*b).to_digit(16)?)
    })?;
    u16::try_from(n).ok()
}
