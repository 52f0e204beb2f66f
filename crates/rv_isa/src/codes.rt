//! The codes of the operations: funct3 alone, or funct3 and funct7.

ghost use Rattle.std.specs.Prelude.{◌≡◌, ℕ, ◌^◌, ◌<◌};
ghost use Rattle.rv_isa.specs.Encoding.{upper_opcode, branch_code, branch_of, load_code, load_of, store_code, store_of, imm_code, imm_of, shift_code, shift_of, op_code, op_of, word_op_code, word_op_of};

use crate::fields::Field;
use crate::instr::{Branch, ImmOp, Load, RegOp, Shift, Store, Upper, WordOp};

/// The codes of an operation on registers.
#[derive(Clone, Copy, Debug, PartialEq, Eq)]
pub struct Code {
    /// The field funct3.
    pub funct3: Field<3>,
    /// The field funct7.
    pub funct7: Field<7>,
}

impl Upper {
    /// The opcode of this instruction.
    pub fn opcode(self) -> Field<7>
        ensures { result ≡ upper_opcode self }
    {
        Field::of(match self {
            Upper::Lui => 0b0110111,
            Upper::Auipc => 0b0010111,
        })
    }
}

impl Branch {
    /// The code of this condition.
    pub fn code(self) -> Field<3>
        ensures { result ≡ branch_code self }
    {
        Field::of(match self {
            Branch::Beq => 0,
            Branch::Bne => 1,
            Branch::Blt => 4,
            Branch::Bge => 5,
            Branch::Bltu => 6,
            Branch::Bgeu => 7,
        })
    }

    /// The condition with this code, where there is one.
    pub fn of_code(funct3: Field<3>) -> Option<Branch>
        ensures { result ≡ branch_of funct3 }
    {
        match funct3.number() {
            0 => Some(Branch::Beq),
            1 => Some(Branch::Bne),
            4 => Some(Branch::Blt),
            5 => Some(Branch::Bge),
            6 => Some(Branch::Bltu),
            7 => Some(Branch::Bgeu),
            _ => None,
        }
    }
}

impl Load {
    /// The code of this load.
    pub fn code(self) -> Field<3>
        ensures { result ≡ load_code self }
    {
        Field::of(match self {
            Load::Lb => 0,
            Load::Lh => 1,
            Load::Lw => 2,
            Load::Ld => 3,
            Load::Lbu => 4,
            Load::Lhu => 5,
            Load::Lwu => 6,
        })
    }

    /// The load with this code, where there is one.
    pub fn of_code(funct3: Field<3>) -> Option<Load>
        ensures { result ≡ load_of funct3 }
    {
        match funct3.number() {
            0 => Some(Load::Lb),
            1 => Some(Load::Lh),
            2 => Some(Load::Lw),
            3 => Some(Load::Ld),
            4 => Some(Load::Lbu),
            5 => Some(Load::Lhu),
            6 => Some(Load::Lwu),
            _ => None,
        }
    }
}

impl Store {
    /// The code of this store.
    pub fn code(self) -> Field<3>
        ensures { result ≡ store_code self }
    {
        Field::of(match self {
            Store::Sb => 0,
            Store::Sh => 1,
            Store::Sw => 2,
            Store::Sd => 3,
        })
    }

    /// The store with this code, where there is one.
    pub fn of_code(funct3: Field<3>) -> Option<Store>
        ensures { result ≡ store_of funct3 }
    {
        match funct3.number() {
            0 => Some(Store::Sb),
            1 => Some(Store::Sh),
            2 => Some(Store::Sw),
            3 => Some(Store::Sd),
            _ => None,
        }
    }
}

impl ImmOp {
    /// The code of this operation.
    pub fn code(self) -> Field<3>
        ensures { result ≡ imm_code self }
    {
        Field::of(match self {
            ImmOp::Addi => 0,
            ImmOp::Slti => 2,
            ImmOp::Sltiu => 3,
            ImmOp::Xori => 4,
            ImmOp::Ori => 6,
            ImmOp::Andi => 7,
        })
    }

    /// The operation with this code, where there is one.
    pub fn of_code(funct3: Field<3>) -> Option<ImmOp>
        ensures { result ≡ imm_of funct3 }
    {
        match funct3.number() {
            0 => Some(ImmOp::Addi),
            2 => Some(ImmOp::Slti),
            3 => Some(ImmOp::Sltiu),
            4 => Some(ImmOp::Xori),
            6 => Some(ImmOp::Ori),
            7 => Some(ImmOp::Andi),
            _ => None,
        }
    }
}

impl Code {
    /// The codes with these numbers.
    pub fn of(funct3: u32, funct7: u32) -> Self
        requires funct3_fits { funct3 < 2 ^ 3 }
        requires funct7_fits { funct7 < 2 ^ 7 }
        ensures { result ≡ record { funct3 = funct3; funct7 = funct7 } }
    {
        Code {
            funct3: Field::of(funct3),
            funct7: Field::of(funct7),
        }
    }
}

impl Shift {
    /// The codes of this shift.
    pub fn code(self) -> Code
        ensures { (result.funct3, result.funct7) ≡ (shift_code self) }
    {
        match self {
            Shift::Sll => Code::of(1, 0b0000000),
            Shift::Srl => Code::of(5, 0b0000000),
            Shift::Sra => Code::of(5, 0b0100000),
        }
    }

    /// The shift with these codes, where there is one.
    pub fn of_code(funct3: Field<3>, funct7: Field<7>) -> Option<Shift>
        ensures { result ≡ shift_of funct3 funct7 }
    {
        match (funct3.number(), funct7.number()) {
            (1, 0b0000000) => Some(Shift::Sll),
            (5, 0b0000000) => Some(Shift::Srl),
            (5, 0b0100000) => Some(Shift::Sra),
            _ => None,
        }
    }
}

impl RegOp {
    /// The codes of this operation.
    pub fn code(self) -> Code
        ensures { (result.funct3, result.funct7) ≡ (op_code self) }
    {
        match self {
            RegOp::Add => Code::of(0, 0b0000000),
            RegOp::Sll => Code::of(1, 0b0000000),
            RegOp::Slt => Code::of(2, 0b0000000),
            RegOp::Sltu => Code::of(3, 0b0000000),
            RegOp::Xor => Code::of(4, 0b0000000),
            RegOp::Srl => Code::of(5, 0b0000000),
            RegOp::Or => Code::of(6, 0b0000000),
            RegOp::And => Code::of(7, 0b0000000),
            RegOp::Sub => Code::of(0, 0b0100000),
            RegOp::Sra => Code::of(5, 0b0100000),
            RegOp::Mul => Code::of(0, 0b0000001),
            RegOp::Mulh => Code::of(1, 0b0000001),
            RegOp::Mulhsu => Code::of(2, 0b0000001),
            RegOp::Mulhu => Code::of(3, 0b0000001),
            RegOp::Div => Code::of(4, 0b0000001),
            RegOp::Divu => Code::of(5, 0b0000001),
            RegOp::Rem => Code::of(6, 0b0000001),
            RegOp::Remu => Code::of(7, 0b0000001),
        }
    }

    /// The operation with these codes, where there is one.
    pub fn of_code(funct3: Field<3>, funct7: Field<7>) -> Option<RegOp>
        ensures { result ≡ op_of funct3 funct7 }
    {
        match (funct3.number(), funct7.number()) {
            (0, 0b0000000) => Some(RegOp::Add),
            (1, 0b0000000) => Some(RegOp::Sll),
            (2, 0b0000000) => Some(RegOp::Slt),
            (3, 0b0000000) => Some(RegOp::Sltu),
            (4, 0b0000000) => Some(RegOp::Xor),
            (5, 0b0000000) => Some(RegOp::Srl),
            (6, 0b0000000) => Some(RegOp::Or),
            (7, 0b0000000) => Some(RegOp::And),
            (0, 0b0100000) => Some(RegOp::Sub),
            (5, 0b0100000) => Some(RegOp::Sra),
            (0, 0b0000001) => Some(RegOp::Mul),
            (1, 0b0000001) => Some(RegOp::Mulh),
            (2, 0b0000001) => Some(RegOp::Mulhsu),
            (3, 0b0000001) => Some(RegOp::Mulhu),
            (4, 0b0000001) => Some(RegOp::Div),
            (5, 0b0000001) => Some(RegOp::Divu),
            (6, 0b0000001) => Some(RegOp::Rem),
            (7, 0b0000001) => Some(RegOp::Remu),
            _ => None,
        }
    }
}

impl WordOp {
    /// The codes of this operation.
    pub fn code(self) -> Code
        ensures { (result.funct3, result.funct7) ≡ (word_op_code self) }
    {
        match self {
            WordOp::Addw => Code::of(0, 0b0000000),
            WordOp::Sllw => Code::of(1, 0b0000000),
            WordOp::Srlw => Code::of(5, 0b0000000),
            WordOp::Subw => Code::of(0, 0b0100000),
            WordOp::Sraw => Code::of(5, 0b0100000),
            WordOp::Mulw => Code::of(0, 0b0000001),
            WordOp::Divw => Code::of(4, 0b0000001),
            WordOp::Divuw => Code::of(5, 0b0000001),
            WordOp::Remw => Code::of(6, 0b0000001),
            WordOp::Remuw => Code::of(7, 0b0000001),
        }
    }

    /// The operation with these codes, where there is one.
    pub fn of_code(funct3: Field<3>, funct7: Field<7>) -> Option<WordOp>
        ensures { result ≡ word_op_of funct3 funct7 }
    {
        match (funct3.number(), funct7.number()) {
            (0, 0b0000000) => Some(WordOp::Addw),
            (1, 0b0000000) => Some(WordOp::Sllw),
            (5, 0b0000000) => Some(WordOp::Srlw),
            (0, 0b0100000) => Some(WordOp::Subw),
            (5, 0b0100000) => Some(WordOp::Sraw),
            (0, 0b0000001) => Some(WordOp::Mulw),
            (4, 0b0000001) => Some(WordOp::Divw),
            (5, 0b0000001) => Some(WordOp::Divuw),
            (6, 0b0000001) => Some(WordOp::Remw),
            (7, 0b0000001) => Some(WordOp::Remuw),
            _ => None,
        }
    }
}
