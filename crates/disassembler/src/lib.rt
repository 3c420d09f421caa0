// The disassembler: a plan and its image, written into lent bytes as a sheet. It is proved equal to
// asm/specs/Writing.antt for every plan and every image.
#![tactic(auto)]

mod disassembler;
mod plans;
mod undefined;
mod words;

pub use disassembler::disassemble;
