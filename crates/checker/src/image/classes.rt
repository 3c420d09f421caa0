// What a word does to the pointers of the mapping table. The definitions are crate word's, in
// specs/Classes.antt.
ghost use Rattle.std.specs.Prelude.{◌≡◌};
ghost use Rattle.word.specs.Classes.{use_at, use_move, table_use_of};

use word::{Address, MuxAtOp, MuxMoveOp, TableUse, Word};

fn use_at(op: MuxAtOp, address: Address) -> TableUse
    ensures { result ≡ use_at op address }
{
    match op {
        MuxAtOp::MuxMapStart | MuxAtOp::MuxLdStart => TableUse::StartAt(address),
        MuxAtOp::MuxLdEnd => TableUse::EndAt(address),
        MuxAtOp::MuxLdAddr | MuxAtOp::MuxMapAddr => TableUse::RowAt(address),
    }
}

fn use_move(op: MuxMoveOp) -> TableUse
    ensures { result ≡ use_move op }
{
    match op {
        MuxMoveOp::MuxMapNext | MuxMoveOp::MuxLdNext => TableUse::Forward,
        MuxMoveOp::MuxMapPrev | MuxMoveOp::MuxLdPrev => TableUse::Backward,
    }
}

pub(super) fn table_use_of(word: Word) -> TableUse
    ensures { result ≡ table_use_of word }
{
    match word {
        Word::MuxAt { op, address } => use_at(op, address),
        Word::MuxMove { op } => use_move(op),
        _ => TableUse::Nothing,
    }
}
