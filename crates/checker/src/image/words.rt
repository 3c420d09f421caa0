// 13, 14 and 15, word by word upward.
ghost use Rattle.std.specs.Prelude.{◌≡◌};
ghost use Rattle.word.specs.Profile.{LP5523};
ghost use Rattle.word.specs.Decode.{decode_of};
ghost use Rattle.plan.specs.internal.Passes.{word_verdict, code_verdict};

use crate::image::Engine;
use crate::image::classes::table_use_of;
use crate::image::table_use::uses_own_table;
use crate::successors::successors_inside;
use decoder::{decode, is_undefined};
use plan::CheckError;
use word::{Address, WORDS};

impl Engine {
    // 13, 14 and 15 of one word.
    #[tactic(auto, unfolding(plan::specs::internal::Passes::word_verdict))]
    fn check_word(self, address: Address, code: u16) -> Result<(), CheckError>
        ensures { result ≡ word_verdict self.plan self.number address.0 (decode_of LP5523 code) }
    {
        let engine = self.number;
        let word = decode(code);
        if is_undefined(word) {
            return Err(CheckError::UndefinedWord { engine, address });
        }
        if !successors_inside(self.plan, address, word) {
            return Err(CheckError::SuccessorOutside { engine, address });
        }
        if !uses_own_table(self.plan, table_use_of(word)) {
            return Err(CheckError::TableMisused { engine, address });
        }
        Ok(())
    }

    // The same of an engine's words. One function for the loops over an engine's words would take the check
    // as a closure, and say in `requires` what it answers.
    #[tactic(auto, unfolding(plan::specs::internal::Passes::code_verdict))]
    pub(super) fn check_words(self, image: &[u16; WORDS]) -> Result<(), CheckError>
        ensures { result ≡ code_verdict LP5523 self.plan self.number image.now }
    {
        let Some(code) = self.plan.code() else {
            return Ok(());
        };
        for at in code.first.0..=code.last.0 {
            self.check_word(Address(at), image[at as usize])?;
        }
        Ok(())
    }
}
