// Plans of light programs, and what the program checker refuses of them. The rules are document 01's, section
// "The plan and the checker" and its numbers 9 and 11 to 17; specs/ has them.
#![tactic(auto)]

ghost use Rattle.std.specs.Prelude.{◌≡◌};

use word::Address;

// The addresses from first to last; none, where first is above last.
// No `RangeInclusive`: it is not Copy, and carries whether it is exhausted.
#[derive(Clone, Copy, Debug, PartialEq, Eq)]
pub struct AddressRange {
    pub first: Address,
    pub last: Address,
}

impl AddressRange {
    ghost use Rattle.plan.specs.Tests.{in_range};

    // An address is a u32 here, so that none overflows as condition 14 adds to one.
    pub fn contains(self, at: u32) -> bool
        ensures { result ≡ in_range self.first self.last at }
    {
        self.first.0 as u32 <= at && at <= self.last.0 as u32
    }
}

// What one engine has: nothing; the code addresses first to last; and perhaps the rows of a mapping
// table, top to bottom. Equal plans are equal values. The ends of the ranges are fields of their own: this
// is the public form, on which callers match.
#[derive(Clone, Copy, Debug, PartialEq, Eq)]
pub enum EnginePlan {
    Unused,
    CodeOnly {
        first: Address,
        last: Address,
    },
    CodeAndTable {
        first: Address,
        last: Address,
        top: Address,
        bottom: Address,
    },
}

impl EnginePlan {
    ghost use Rattle.plan.specs.Ranges.{code_of, table_of};

    // The addresses of the engine's code, if it has any.
    pub fn code(self) -> Option<AddressRange>
        ensures { result ≡ code_of self }
    {
        match self {
            EnginePlan::Unused => None,
            EnginePlan::CodeOnly { first, last } | EnginePlan::CodeAndTable { first, last, .. } => {
                Some(AddressRange { first, last })
            }
        }
    }

    // The addresses of the engine's table, if it has one: its rows.
    pub fn table(self) -> Option<AddressRange>
        ensures { result ≡ table_of self }
    {
        match self {
            EnginePlan::CodeAndTable { top, bottom, .. } => Some(AddressRange {
                first: top,
                last: bottom,
            }),
            _ => None,
        }
    }
}

// Three fields and no array: this is the public form, on which callers match.
#[derive(Clone, Copy, Debug, PartialEq, Eq)]
pub struct Plan {
    pub engine1: EnginePlan,
    pub engine2: EnginePlan,
    pub engine3: EnginePlan,
}

impl Plan {
    ghost use Rattle.word.specs.Profile.{LP5523};
    ghost use Rattle.plan.specs.Ranges.{engine_plans};

    // The engines' plans, in their order.
    pub fn engines(self) -> [EnginePlan; 3]
        ensures { result ≡ engine_plans LP5523 self }
    {
        [self.engine1, self.engine2, self.engine3]
    }
}

// Why the checker refuses a plan and its image; engines are counted from 1. `report_of` in
// specs/Verdict.antt gives each case's number in document 01.
#[derive(Clone, Copy, Debug, PartialEq, Eq)]
pub enum CheckError {
    // the image doesn't have as many words as the chip
    WrongLength,
    // first above last, top above bottom, or past the memory
    InvalidRange { engine: u16 },
    // a code address of this engine is also a table address
    CodeOverlapsTable { engine: u16 },
    UndefinedWord { engine: u16, address: Address },
    // a successor of this word lies outside the engine's code
    SuccessorOutside { engine: u16, address: Address },
    // a mux word that doesn't keep to the engine's table
    TableMisused { engine: u16, address: Address },
    // the code doesn't begin by setting the table's top and bottom
    TableNotOpened { engine: u16, address: Address },
    // a table row with a bit that is no output's
    ReservedRowBit { engine: u16, address: Address },
}

// A checker's answer as document 01 reports it: its number, the engine and the address, zero for what
// it doesn't give, and for success.
#[derive(Clone, Copy, Debug, PartialEq, Eq)]
pub struct Report {
    pub number: u16,
    pub engine: u16,
    pub address: u16,
}
