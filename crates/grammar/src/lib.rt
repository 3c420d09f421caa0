// The lines of a sheet. The grammar is document 01's: specs/Grammar.antt. The functions stand in
// `line_reader` and `line_writer`, which go by the tables.
#![tactic(auto)]

mod entries;

pub use entries::{ANSWERS, OP_COUNT, PLAN, op_lines};
use text::ValueError;

// The kinds of a sheet's lines.
#[derive(Clone, Copy, Debug, PartialEq, Eq)]
pub enum LineKind {
    Op,
    // the plan of the engine with this number; engines are counted from 1
    Plan(u16),
    Row,
    Spare,
}

// The numbers from `least` to `most`, both included.
// No `RangeInclusive`: it is not Copy, and carries whether it is exhausted.
#[derive(Clone, Copy, Debug, PartialEq, Eq)]
pub struct Range {
    pub least: u16,
    pub most: u16,
}

impl Range {
    ghost use Rattle.std.specs.Prelude.{◌≡◌, ◌&&◌, nat_le};

    pub fn contains(self, n: u16) -> bool
        ensures { result ≡ (nat_le self.least n && nat_le n self.most) }
    {
        self.least <= n && n <= self.most
    }
}

// What the value of a pair may be.
#[derive(Clone, Copy, Debug, PartialEq, Eq)]
pub enum Kind {
    // a number in one of some ranges
    Number(&'static [Range]),
    // one of some keywords, which stands for its place among them
    Keyword(&'static [&'static [u8]]),
    // one of `ANSWERS`; the line ends after a no
    Decision,
}

impl Kind {
    ghost use Rattle.std.specs.Prelude.{◌≡◌};
    ghost use Rattle.grammar.specs.Entries.{stops};

    // Whether the pairs after a value are left out: after a yes or no that isn't yes.
    #[tactic(auto, unfolding(crate::specs::Entries::stops))]
    pub fn stops(self, value: Result<u16, ValueError>) -> bool
        ensures { result ≡ stops self value }
    {
        matches!(self, Kind::Decision) && value != Ok(0)
    }
}

// A pair of a line.
#[derive(Clone, Copy, Debug, PartialEq, Eq)]
pub struct Pair {
    pub key: &'static [u8],
    pub kind: Kind,
}

// The line of an operation: its name, and the pairs after `op=name`.
#[derive(Clone, Copy, Debug, PartialEq, Eq)]
pub struct OpLine {
    pub name: &'static [u8],
    pub form: &'static [Pair],
}

// The values of a line's pairs in their order, 0 past the last. The first value of an op line is the
// operation's place in document 01's table; a keyword stands for its place among those allowed.
// An array, since there is no heap.
pub type Values = [u16; 7];

// Why a line is refused; the order is that of the numbers 20, 21 and 22.
#[derive(Clone, Copy, Debug, PartialEq, Eq)]
pub enum LineError {
    // not of the form that its place asks for
    Malformed,
    UnknownOp,
    // a value outside its field, or a ramp up by 0
    OutsideField,
}

impl From<ValueError> for LineError {
    ghost use Rattle.std.specs.Prelude.{◌≡◌};
    ghost use Rattle.grammar.specs.Values.{error_for};

    ghost from_gives = { λ e r. r ≡ error_for e };

    fn from(e: ValueError) -> LineError {
        match e {
            ValueError::Malformed => LineError::Malformed,
            ValueError::Outside => LineError::OutsideField,
        }
    }
}
