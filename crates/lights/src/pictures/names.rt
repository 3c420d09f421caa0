// The outputs' names.
pub const OUTPUTS: usize = 10;

pub const NAMES: [&[u8]; OUTPUTS] = [
    b"D1", b"D2", b"D3", b"D4", b"D5", b"D6", b"D7", b"D8", b"D9", b"GPO",
];
