// A verdict as document 01 reports it.
ghost use Rattle.std.specs.Prelude.{◌≡◌};
ghost use Rattle.plan.specs.Verdict.{report, report_of};

use plan::{CheckError, Report};
use word::Address;

pub(super) fn reported(number: u16, engine: u16, address: Address) -> Report
    ensures { result ≡ report number engine address.0 }
{
    Report {
        number,
        engine,
        address: address.0,
    }
}

pub fn report_of(verdict: Result<(), CheckError>) -> Report
    ensures { result ≡ report_of verdict }
{
    match verdict {
        Ok(()) => reported(0, 0, Address(0)),
        Err(CheckError::WrongLength) => reported(9, 0, Address(0)),
        Err(CheckError::InvalidRange { engine }) => reported(11, engine, Address(0)),
        Err(CheckError::CodeOverlapsTable { engine }) => reported(12, engine, Address(0)),
        Err(CheckError::UndefinedWord { engine, address }) => reported(13, engine, address),
        Err(CheckError::SuccessorOutside { engine, address }) => reported(14, engine, address),
        Err(CheckError::TableMisused { engine, address }) => reported(15, engine, address),
        Err(CheckError::TableNotOpened { engine, address }) => reported(16, engine, address),
        Err(CheckError::ReservedRowBit { engine, address }) => reported(17, engine, address),
    }
}
