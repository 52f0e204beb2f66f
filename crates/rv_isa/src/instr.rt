use crate::fields::{Field, Register};

/// An instruction with an immediate of 20 high bits.
#[derive(Clone, Copy, Debug, PartialEq, Eq)]
pub enum Upper {
    Lui,
    Auipc,
}

/// A condition on two registers.
#[derive(Clone, Copy, Debug, PartialEq, Eq)]
pub enum Branch {
    Beq,
    Bne,
    Blt,
    Bge,
    Bltu,
    Bgeu,
}

/// How many bytes are loaded, and whether their sign is extended.
#[derive(Clone, Copy, Debug, PartialEq, Eq)]
pub enum Load {
    Lb,
    Lh,
    Lw,
    Ld,
    Lbu,
    Lhu,
    Lwu,
}

/// How many bytes are stored.
#[derive(Clone, Copy, Debug, PartialEq, Eq)]
pub enum Store {
    Sb,
    Sh,
    Sw,
    Sd,
}

/// An operation on a register and an immediate.
#[derive(Clone, Copy, Debug, PartialEq, Eq)]
pub enum ImmOp {
    Addi,
    Slti,
    Sltiu,
    Xori,
    Ori,
    Andi,
}

/// A shift by a constant.
#[derive(Clone, Copy, Debug, PartialEq, Eq)]
pub enum Shift {
    Sll,
    Srl,
    Sra,
}

/// An operation on two registers.
#[derive(Clone, Copy, Debug, PartialEq, Eq)]
pub enum RegOp {
    Add,
    Sll,
    Slt,
    Sltu,
    Xor,
    Srl,
    Or,
    And,
    Sub,
    Sra,
    Mul,
    Mulh,
    Mulhsu,
    Mulhu,
    Div,
    Divu,
    Rem,
    Remu,
}

/// An operation on the low 32 bits of two registers.
#[derive(Clone, Copy, Debug, PartialEq, Eq)]
pub enum WordOp {
    Addw,
    Sllw,
    Srlw,
    Subw,
    Sraw,
    Mulw,
    Divw,
    Divuw,
    Remw,
    Remuw,
}

/// An instruction, one variant a row of the table. The registers stand in the order rd, rs1, rs2.
///
/// An immediate is held as the bits of its field, without its sign: an immediate of 12 bits with the value -1 is 4,095.
/// The immediate of `Branch` and of `Jal` is half of the offset.
#[derive(Clone, Copy, Debug, PartialEq, Eq)]
pub enum Instr {
    /// LUI, AUIPC: rd and bits 31 to 12 of the number.
    Upper(Upper, Register, Field<20>),
    /// JAL: rd and half of the offset.
    Jal(Register, Field<20>),
    /// JALR: rd, rs1 and the immediate.
    Jalr(Register, Register, Field<12>),
    /// BEQ, BNE, BLT, BGE, BLTU, BGEU: rs1, rs2 and half of the offset.
    Branch(Branch, Register, Register, Field<12>),
    /// LB, LH, LW, LD, LBU, LHU, LWU: rd, rs1 and the immediate.
    Load(Load, Register, Register, Field<12>),
    /// SB, SH, SW, SD: rs1, which holds the address, rs2 and the immediate.
    Store(Store, Register, Register, Field<12>),
    /// ADDI, SLTI, SLTIU, XORI, ORI, ANDI: rd, rs1 and the immediate.
    Imm(ImmOp, Register, Register, Field<12>),
    /// SLLI, SRLI, SRAI: rd, rs1 and how far.
    Shift(Shift, Register, Register, Field<6>),
    /// ADDIW: rd, rs1 and the immediate.
    Addiw(Register, Register, Field<12>),
    /// SLLIW, SRLIW, SRAIW: rd, rs1 and how far.
    ShiftWord(Shift, Register, Register, Field<5>),
    /// ADD to REMU: rd, rs1, rs2.
    Op(RegOp, Register, Register, Register),
    /// ADDW to REMUW: rd, rs1, rs2.
    WordOp(WordOp, Register, Register, Register),
    /// ECALL.
    Ecall,
}
