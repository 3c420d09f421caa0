// Where a word lets its engine go on. The definition is crate word's, in specs/Classes.antt.
ghost use Rattle.std.specs.Prelude.{◌≡◌};
ghost use Rattle.word.specs.Classes.{flow_of};

use word::{Flow, Word};

pub(super) fn flow_of(word: Word) -> Flow
    ensures { result ≡ flow_of word }
{
    match word {
        Word::Rst => Flow::Restart,
        Word::BranchVar { loops, step } => Flow::LoopVar { loops, step },
        Word::Jump {
            op,
            skip,
            left,
            right,
        } => Flow::Skip {
            op,
            skip,
            left,
            right,
        },
        Word::Branch { loops, step } => Flow::Loop { loops, step },
        Word::End { int: _, reset } => Flow::Stop { reset },
        Word::Undefined => Flow::Fault,
        _ => Flow::Next,
    }
}
