// The commands by their names.
use crate::numbers::Base;

#[derive(Clone, Copy, Debug, PartialEq, Eq)]
pub enum Call {
    New,
    Load,
    Words,
    Write,
    Modes,
    Control,
    Burst,
    Read,
    Beat,
    Pulse,
    Run,
    At,
}

impl Call {
    pub fn named(name: &[u8]) -> Option<Call> {
        match name {
            b"new" => Some(Call::New),
            b"load" => Some(Call::Load),
            b"words" => Some(Call::Words),
            b"write" => Some(Call::Write),
            b"modes" => Some(Call::Modes),
            b"control" => Some(Call::Control),
            b"burst" => Some(Call::Burst),
            b"read" => Some(Call::Read),
            b"beat" => Some(Call::Beat),
            b"pulse" => Some(Call::Pulse),
            b"run" => Some(Call::Run),
            b"at" => Some(Call::At),
            _ => None,
        }
    }

    // Beats and addresses of words are decimal; registers, bytes and words are hexadecimal.
    pub fn base(call: Option<Call>) -> Base {
        match call {
            Some(Call::Run | Call::At) | None => Base::Decimal,
            Some(_) => Base::Hex,
        }
    }
}
