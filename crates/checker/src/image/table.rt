// 16: the code begins by setting the table's pointers; 17: the rows have no reserved bit.
ghost use Rattle.std.specs.Prelude.{◌≡◌, ◌<◌};
ghost use Rattle.word.specs.Profile.{LP5523};
ghost use Rattle.word.specs.Classes.{table_use_of};
ghost use Rattle.word.specs.Decode.{word_at};
ghost use Rattle.plan.specs.Conditions.{is_start, is_end};
ghost use Rattle.plan.specs.internal.Passes.{opened_verdict, row_verdict, rows_verdict};

use crate::image::Engine;
use crate::image::classes::table_use_of;
use plan::{CheckError, EnginePlan};
use word::{Address, TableUse, WORDS};

fn is_start(usage: TableUse) -> bool
    ensures { result ≡ is_start usage }
{
    matches!(usage, TableUse::StartAt(_))
}

fn is_end(usage: TableUse) -> bool
    ensures { result ≡ is_end usage }
{
    matches!(usage, TableUse::EndAt(_))
}

fn use_of_word_at(image: &[u16; WORDS], at: u16) -> TableUse
    requires { at < 96 }
    ensures { result ≡ table_use_of (word_at LP5523 image.now at) }
{
    table_use_of(decoder::decode(image[at as usize]))
}

// The bits of a row that are no output's: 9 to 14.
const RESERVED: u16 = 0x7E00;

impl Engine {
    // 16: with a table, the code begins by setting its top, then its bottom.
    #[tactic(auto, unfolding(plan::specs::internal::Passes::opened_verdict))]
    pub(super) fn check_opened(self, image: &[u16; WORDS]) -> Result<(), CheckError>
        ensures { result ≡ opened_verdict LP5523 self.plan self.number image.now }
    {
        let EnginePlan::CodeAndTable { first, last, .. } = self.plan else {
            return Ok(());
        };
        if first < last
            && is_start(use_of_word_at(image, first.0))
            && is_end(use_of_word_at(image, first.0 + 1))
        {
            return Ok(());
        }
        Err(CheckError::TableNotOpened {
            engine: self.number,
            address: first,
        })
    }

    // 17: no bit of a row is set that is no output's.
    #[tactic(auto, unfolding(plan::specs::internal::Passes::row_verdict))]
    fn check_row(self, address: Address, row: u16) -> Result<(), CheckError>
        ensures { result ≡ row_verdict LP5523 self.number address.0 row }
    {
        if row & RESERVED != 0 {
            return Err(CheckError::ReservedRowBit {
                engine: self.number,
                address,
            });
        }
        Ok(())
    }

    // 17, row by row upward.
    #[tactic(auto, unfolding(plan::specs::internal::Passes::rows_verdict))]
    pub(super) fn check_rows(self, image: &[u16; WORDS]) -> Result<(), CheckError>
        ensures { result ≡ rows_verdict LP5523 self.plan self.number image.now }
    {
        let Some(table) = self.plan.table() else {
            return Ok(());
        };
        for at in table.first.0..=table.last.0 {
            self.check_row(Address(at), image[at as usize])?;
        }
        Ok(())
    }
}
