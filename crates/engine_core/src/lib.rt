// An engine without its branch counts: a beat works on it, and only the counts are lent, so that
// little is copied. It is taken from an engine, put together again, and tells whether it acts; `is_load`,
// `any_loads` and `has_bit` serve the host registers too.
#![tactic(auto)]

mod acting;
mod bits;
mod loading;
mod pending;
mod split;

pub use bits::{PIN, has_bit};
pub use loading::{any_loads, is_load};
use machine::{Exec, Mode, Pointers, Progress};
use word::{Address, Step};

// An engine without its branch counts. The order is for speed: the compiler moves neighbours in one
// piece, and a processor stalls where it reads in one piece what it has just written in several
// (store forwarding). So what a beat looks at by itself (pending, mask, mode and progress) parts the
// other fields.
#[derive(Clone, Copy)]
pub struct EngineCore {
    pub start: Address,
    pub table: Pointers,
    pub pending: u16,
    pub mask: u16,
    pub pc: Step,
    pub a: u8,
    pub b: u8,
    pub interrupt: bool,
    pub fault: bool,
    pub mode: Mode,
    pub exec: Exec,
    pub progress: Progress,
}
