//! The operands and the results of the instructions.
ghost use Rattle.std.specs.Prelude.{◌≡◌, ◌+◌, ◌*◌, ◌<◌};
ghost use Rattle.rv_isa.specs.Operations.{extended, plus};
ghost use Rattle.rv_machine.specs.Registers.{registers_of};
ghost use Rattle.rv_machine.specs.Effects.{effect};

use crate::effects::Effect;
use crate::operations::{
    extended, imm_value, is_taken, op_value, shift_value, upper_value, word, word_op_value,
    word_shift_value,
};
use crate::registers::Registers;
use rv_isa::fields::Field;
use rv_isa::instr::Instr;

/// An immediate of 12 bits, extended by its sign.
fn immediate(number: Field<12>) -> u64
    ensures { result ≡ extended 12 number }
{
    extended(12, u64::from(number.number()))
}

/// The address that lies this far from another, the distance given by its half in `BITS` bits.
fn offset<const BITS: u32>(pc: u64, half: Field<BITS>) -> u64
    requires some_bits { 0 < BITS }
    requires few_bits { BITS < 32 }
    ensures { result ≡ plus pc (extended (BITS + 1) (half.entry * 2)) }
{
    pc.wrapping_add(extended(BITS + 1, u64::from(half.number()) * 2))
}

/// What an instruction at this address asks of a machine with these registers.
#[inline(always)]
pub(crate) fn effect(registers: &Registers, pc: u64, instr: Instr) -> Effect
    ensures { result ≡ effect (registers_of registers.now) pc instr }
{
    match instr {
        Instr::Jal(rd, half) => Effect::Link {
            rd,
            target: offset(pc, half),
        },
        Instr::Jalr(rd, rs1, number) => {
            let target = registers.get(rs1).wrapping_add(immediate(number)) / 2 * 2;
            Effect::Link { rd, target }
        }
        Instr::Branch(op, rs1, rs2, half) => Effect::Branch {
            taken: is_taken(op, registers.get(rs1), registers.get(rs2)),
            target: offset(pc, half),
        },
        Instr::Load(op, rd, rs1, number) => Effect::Load {
            op,
            rd,
            address: registers.get(rs1).wrapping_add(immediate(number)),
        },
        Instr::Store(op, rs1, rs2, number) => Effect::Store {
            op,
            address: registers.get(rs1).wrapping_add(immediate(number)),
            word: registers.get(rs2),
        },
        Instr::Upper(op, rd, number) => Effect::Set {
            rd,
            word: upper_value(op, pc, number.number()),
        },
        Instr::Imm(op, rd, rs1, number) => Effect::Set {
            rd,
            word: imm_value(op, registers.get(rs1), immediate(number)),
        },
        Instr::Shift(op, rd, rs1, number) => Effect::Set {
            rd,
            word: shift_value(op, registers.get(rs1), number.number()),
        },
        Instr::Addiw(rd, rs1, number) => Effect::Set {
            rd,
            word: word(registers.get(rs1).wrapping_add(immediate(number))),
        },
        Instr::ShiftWord(op, rd, rs1, number) => Effect::Set {
            rd,
            word: word_shift_value(op, registers.get(rs1), number.number()),
        },
        Instr::Op(op, rd, rs1, rs2) => Effect::Set {
            rd,
            word: op_value(op, registers.get(rs1), registers.get(rs2)),
        },
        Instr::WordOp(op, rd, rs1, rs2) => Effect::Set {
            rd,
            word: word_op_value(op, registers.get(rs1), registers.get(rs2)),
        },
        Instr::Ecall => Effect::Call,
    }
}
