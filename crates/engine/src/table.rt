// Words that set the mask or the pointers into the mapping table.
ghost use Rattle.std.specs.Prelude.{◌≡◌, ℕ, ◌≤◌, true, false, List, slice_index};
ghost use Rattle.word.specs.Profile.{LP5523};
ghost use Rattle.word.specs.Classes.{use_at, use_move, maps_at, maps_move};
ghost use Rattle.word.specs.declared.TableUse.TheVariants.{StartAt, EndAt, RowAt, Forward, Backward};
ghost use Rattle.machine.specs.Parts.{with_mask};
ghost use Rattle.machine.specs.WordEnd.{goes_on};
ghost use Rattle.machine.specs.Outputs.{mask_of, mask_of_output};
ghost use Rattle.machine.specs.TablePointers.{next_index, previous_index, pointed, points};
ghost use Rattle.engine_core.specs.Core.{engine_of};
ghost use Rattle.engine.specs.internal.Act.{act_of};

use super::acting::Acting;
use crate::CoreResult;
use machine::Pointers;
use word::{Address, MuxAtOp, MuxMoveOp, WORDS};

// The row bits that are outputs.
const OUTPUT_BITS: u16 = 0x81FF;

fn next_index(t: Pointers) -> Address
    ensures { result.0 ≡ next_index LP5523 t }
{
    if t.index == t.bottom || t.index.0 as usize >= WORDS - 1 {
        return t.top;
    }
    Address(t.index.0 + 1)
}

fn previous_index(t: Pointers) -> Address
    ensures { result.0 ≡ previous_index t }
{
    if t.index == t.top || t.index.0 == 0 {
        return t.bottom;
    }
    Address(t.index.0 - 1)
}

// The mask that the row at an address gives; past the memory there is none.
fn mask_at(memory: &[u16; WORDS], index: Address) -> u16
    ensures { result ≡ mask_of LP5523 (slice_index memory.now index.0) }
{
    match memory.get(index.0 as usize) {
        Some(row) => row & OUTPUT_BITS,
        None => 0,
    }
}

// One function for each case of `pointed`, so that a beat makes no TableUse.
fn start_at(t: Pointers, address: Address) -> Pointers
    ensures { result ≡ pointed LP5523 (StartAt address) t }
{
    Pointers {
        top: address,
        index: address,
        ..t
    }
}

fn end_at(t: Pointers, address: Address) -> Pointers
    ensures { result ≡ pointed LP5523 (EndAt address) t }
{
    Pointers {
        bottom: address,
        ..t
    }
}

fn row_at(t: Pointers, address: Address) -> Pointers
    ensures { result ≡ pointed LP5523 (RowAt address) t }
{
    Pointers {
        index: address,
        ..t
    }
}

fn forward(t: Pointers) -> Pointers
    ensures { result ≡ pointed LP5523 Forward t }
{
    row_at(t, next_index(t))
}

fn backward(t: Pointers) -> Pointers
    ensures { result ≡ pointed LP5523 Backward t }
{
    row_at(t, previous_index(t))
}

impl Acting {
    #[tactic(auto, unfolding(machine::specs::TablePointers::points))]
    fn loads(mut self, table: Pointers) -> CoreResult
        ensures { (memory counts : List ℕ) → act_of result counts ≡ points LP5523 self.c memory (engine_of self.own counts) false table }
    {
        self.own.table = table;
        self.goes_on()
    }

    #[tactic(auto, unfolding(machine::specs::TablePointers::points))]
    fn maps(mut self, memory: &[u16; WORDS], table: Pointers) -> CoreResult
        ensures { (counts : List ℕ) → act_of result counts ≡ points LP5523 self.c memory.now (engine_of self.own counts) true table }
    {
        self.own.table = table;
        self.own.mask = mask_at(memory, table.index);
        self.goes_on()
    }

    pub(super) fn mux_at(self, memory: &[u16; WORDS], op: MuxAtOp, address: Address) -> CoreResult
        ensures { (counts : List ℕ) → act_of result counts ≡ points LP5523 self.c memory.now (engine_of self.own counts) (maps_at op) (pointed LP5523 (use_at op address) self.own.table) }
    {
        let t = self.own.table;
        match op {
            MuxAtOp::MuxMapStart => self.maps(memory, start_at(t, address)),
            MuxAtOp::MuxLdEnd => self.loads(end_at(t, address)),
            MuxAtOp::MuxLdStart => self.loads(start_at(t, address)),
            MuxAtOp::MuxLdAddr => self.loads(row_at(t, address)),
            MuxAtOp::MuxMapAddr => self.maps(memory, row_at(t, address)),
        }
    }

    pub(super) fn mux_move(self, memory: &[u16; WORDS], op: MuxMoveOp) -> CoreResult
        ensures { (counts : List ℕ) → act_of result counts ≡ points LP5523 self.c memory.now (engine_of self.own counts) (maps_move op) (pointed LP5523 (use_move op) self.own.table) }
    {
        let t = self.own.table;
        match op {
            MuxMoveOp::MuxMapNext => self.maps(memory, forward(t)),
            MuxMoveOp::MuxLdNext => self.loads(forward(t)),
            MuxMoveOp::MuxMapPrev => self.maps(memory, backward(t)),
            MuxMoveOp::MuxLdPrev => self.loads(backward(t)),
        }
    }

    pub(super) fn mux_sel(mut self, output: u16) -> CoreResult
        requires { (1 ≤ output) × (output ≤ 16) }
        ensures { (counts : List ℕ) → act_of result counts ≡ goes_on self.c (with_mask (mask_of_output output) (engine_of self.own counts)) }
    {
        self.own.mask = 1 << (output - 1);
        self.goes_on()
    }

    pub(super) fn mux_clr(mut self) -> CoreResult
        ensures { (counts : List ℕ) → act_of result counts ≡ goes_on self.c (with_mask 0 (engine_of self.own counts)) }
    {
        self.own.mask = 0;
        self.goes_on()
    }
}
