//! Instructions to words, and back.

ghost use Rattle.std.specs.Prelude.{◌≡◌, ◌↔◌, IsNone, IfSome, ℕ, ◌+◌, ◌/◌, ◌%◌, ◌^◌, ◌<◌};
ghost use Rattle.rv_isa.specs.Valid.{IsInstr, IsWord};
ghost use Rattle.rv_isa.specs.Word.{r_format};
ghost use Rattle.rv_isa.specs.Encoding.{fields, encoding, instr_of, imm_instr_of, word_imm_instr_of, jalr_of, system_instr_of, decoded};

use crate::codes::Code;
use crate::fields::{Field, Fields};
use crate::formats::{b_format, i_format, j_format, r_format, s_format, u_format};
use crate::instr::{Branch, ImmOp, Instr, Load, RegOp, Shift, Store, Upper, WordOp};

/// The fields of the word of a shift by six bits, whose highest bit of the amount stands in funct7.
fn shift_fields(code: Code, rd: Field<5>, rs1: Field<5>, amount: Field<6>) -> Fields
    requires { code.funct7 + 1 < 2 ^ 7 }
    ensures { result ≡ r_format 0b0010011 rd code.funct3 rs1 (amount % 2 ^ 5) (code.funct7 + amount / 2 ^ 5) }
{
    let bits = amount.number();
    let code = Code {
        funct3: code.funct3,
        funct7: Field::of(code.funct7.number() + (bits >> 5)),
    };
    r_format(0b0010011, rd, code, rs1, Field::of(bits % (1 << 5)))
}

/// The row of the table.
fn fields(instr: Instr) -> Fields
    ensures row { result ≡ fields instr }
    ensures valid { IsInstr instr }
{
    match instr {
        Instr::Upper(upper, rd, bits) => u_format(upper.opcode().number(), rd, bits),
        Instr::Jal(rd, half) => j_format(0b1101111, rd, half),
        Instr::Jalr(rd, rs1, immediate) => i_format(0b1100111, rd, Field::of(0), rs1, immediate),
        Instr::Branch(branch, rs1, rs2, half) => b_format(0b1100011, branch.code(), rs1, rs2, half),
        Instr::Load(load, rd, rs1, immediate) => i_format(
            0b0000011,
            rd,
            load.code(),
            rs1,
            immediate,
        ),
        Instr::Store(store, rs1, rs2, immediate) => s_format(
            0b0100011,
            store.code(),
            rs1,
            rs2,
            immediate,
        ),
        Instr::Imm(op, rd, rs1, immediate) => i_format(0b0010011, rd, op.code(), rs1, immediate),
        Instr::Shift(shift, rd, rs1, amount) => shift_fields(shift.code(), rd, rs1, amount),
        Instr::Addiw(rd, rs1, immediate) => i_format(0b0011011, rd, Field::of(0), rs1, immediate),
        Instr::ShiftWord(shift, rd, rs1, amount) => r_format(
            0b0011011,
            rd,
            shift.code(),
            rs1,
            amount,
        ),
        Instr::Op(op, rd, rs1, rs2) => r_format(0b0110011, rd, op.code(), rs1, rs2),
        Instr::WordOp(op, rd, rs1, rs2) => r_format(0b0111011, rd, op.code(), rs1, rs2),
        Instr::Ecall => r_format(
            0b1110011,
            Field::of(0),
            Code::of(0, 0),
            Field::of(0),
            Field::of(0),
        ),
    }
}

/// The word of an instruction.
/// (The RISC-V Instruction Set Manual, Volume I, "RV32/64G Instruction Set Listings".)
pub fn encode(instr: Instr) -> u32
    ensures word { result ≡ encoding instr }
    ensures back { decoded result ≡ Some instr }
{
    fields(instr).word()
}

/// A shift by six bits, or another operation with an immediate.
#[inline(always)]
#[tactic(auto, unfolding(crate::specs::Encoding::imm_instr_of))]
fn imm_instr(f: Fields) -> Option<Instr>
    ensures { result ≡ imm_instr_of f }
{
    match f.funct3.number() {
        1 | 5 => {
            let funct7 = f.funct7.number();
            let amount = Field::of((funct7 % 2 << 5) + f.rs2.number());
            let shift = Shift::of_code(f.funct3, Field::of(funct7 / 2 * 2))?;
            Some(Instr::Shift(shift, f.rd, f.rs1, amount))
        }
        _ => Some(Instr::Imm(ImmOp::of_code(f.funct3)?, f.rd, f.rs1, f.i_immediate())),
    }
}

/// ADDIW, or a shift of a word.
#[inline(always)]
#[tactic(auto, unfolding(crate::specs::Encoding::word_imm_instr_of))]
fn word_imm_instr(f: Fields) -> Option<Instr>
    ensures { result ≡ word_imm_instr_of f }
{
    if f.funct3.number() == 0 {
        return Some(Instr::Addiw(f.rd, f.rs1, f.i_immediate()));
    }
    let shift = Shift::of_code(f.funct3, f.funct7)?;
    Some(Instr::ShiftWord(shift, f.rd, f.rs1, f.rs2))
}

fn jalr(f: Fields) -> Option<Instr>
    ensures { result ≡ jalr_of f }
{
    (f.funct3.number() == 0).then_some(Instr::Jalr(f.rd, f.rs1, f.i_immediate()))
}

fn system_instr(f: Fields) -> Option<Instr>
    ensures { result ≡ system_instr_of f }
{
    let is_ecall = f.rd.number() == 0
        && f.funct3.number() == 0
        && f.rs1.number() == 0
        && f.rs2.number() == 0
        && f.funct7.number() == 0;
    is_ecall.then_some(Instr::Ecall)
}

/// What stands in the fields of a word, by its opcode.
#[inline(always)]
#[tactic(auto, unfolding(crate::specs::Encoding::instr_of))]
fn instr(f: Fields) -> Option<Instr>
    ensures { result ≡ instr_of f }
{
    match f.opcode.number() {
        0b0110111 => Some(Instr::Upper(Upper::Lui, f.rd, f.u_immediate())),
        0b0010111 => Some(Instr::Upper(Upper::Auipc, f.rd, f.u_immediate())),
        0b1101111 => Some(Instr::Jal(f.rd, f.j_half())),
        0b1100111 => jalr(f),
        0b1100011 => Some(Instr::Branch(Branch::of_code(f.funct3)?, f.rs1, f.rs2, f.b_half())),
        0b0000011 => Some(Instr::Load(Load::of_code(f.funct3)?, f.rd, f.rs1, f.i_immediate())),
        0b0100011 => Some(Instr::Store(Store::of_code(f.funct3)?, f.rs1, f.rs2, f.s_immediate())),
        0b0010011 => imm_instr(f),
        0b0011011 => word_imm_instr(f),
        0b0110011 => Some(Instr::Op(RegOp::of_code(f.funct3, f.funct7)?, f.rd, f.rs1, f.rs2)),
        0b0111011 => Some(Instr::WordOp(WordOp::of_code(f.funct3, f.funct7)?, f.rd, f.rs1, f.rs2)),
        0b1110011 => system_instr(f),
        _ => None,
    }
}

/// The instruction of a word, None exactly where the word is that of no instruction.
/// (The RISC-V Instruction Set Manual, Volume I, "RV32/64G Instruction Set Listings".)
#[inline(always)]
#[tactic(auto, unfolding(crate::specs::Encoding::decoded))]
pub fn decode(word: u32) -> Option<Instr>
    ensures value { result ≡ decoded word }
    ensures back { IfSome result (λ i. IsInstr i × (encoding i ≡ word)) }
    ensures none { IsNone result ↔ ¬ IsWord word }
{
    instr(Fields::of_word(word))
}

#[cfg(test)]
mod tests {
    use super::*;

    #[test]
    fn reads_words(rt: HostRuntime) {
        let addi = Instr::Imm(ImmOp::Addi, Field::of(17), Field::of(0), Field::of(5));
        assert_eq!(rt; decode(0x0050_0893), Some(addi));
        assert_eq!(rt; decode(0x0000_0073), Some(Instr::Ecall));
        assert_eq!(rt; decode(0), None);
        // a right shift of which bit 29 is set, and one of a word by 32
        assert_eq!(rt; decode(0x2000_5013), None);
        assert_eq!(rt; decode(0x0200_101b), None);
    }

    // The words were computed apart from this program, from the manual's bit positions.
    #[test]
    fn writes_words(rt: HostRuntime) {
        let jal = Instr::Jal(Field::of(1), Field::of((1 << 20) - 2));
        assert_eq!(rt; encode(jal), 0xffdf_f0ef);
        let branch = Instr::Branch(
            Branch::Bgeu,
            Field::of(10),
            Field::of(11),
            Field::of((1 << 12) - 4),
        );
        assert_eq!(rt; encode(branch), 0xfeb5_7ce3);
        let shift = Instr::Shift(Shift::Sra, Field::of(5), Field::of(6), Field::of(63));
        assert_eq!(rt; encode(shift), 0x43f3_5293);
        assert_eq!(rt; encode(Instr::Ecall), 0x0000_0073);
    }
}
