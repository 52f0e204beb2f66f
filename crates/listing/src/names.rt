//! Names of operations.

ghost use Rattle.std.specs.Prelude.{◌≡◌};
ghost use Rattle.listing.specs.Names.{upper_name, branch_name, load_name, store_name, imm_name};
ghost use Rattle.listing.specs.Names.{shift_name, word_shift_name, op_name, word_op_name};

use rv_isa::instr::{Branch, ImmOp, Load, RegOp, Shift, Store, Upper, WordOp};

pub(crate) fn upper_name(upper: Upper) -> &'static str
    ensures { result.now ≡ upper_name upper }
{
    match upper {
        Upper::Lui => "lui",
        Upper::Auipc => "auipc",
    }
}

pub(crate) fn branch_name(branch: Branch) -> &'static str
    ensures { result.now ≡ branch_name branch }
{
    match branch {
        Branch::Beq => "beq",
        Branch::Bne => "bne",
        Branch::Blt => "blt",
        Branch::Bge => "bge",
        Branch::Bltu => "bltu",
        Branch::Bgeu => "bgeu",
    }
}

pub(crate) fn load_name(load: Load) -> &'static str
    ensures { result.now ≡ load_name load }
{
    match load {
        Load::Lb => "lb",
        Load::Lh => "lh",
        Load::Lw => "lw",
        Load::Ld => "ld",
        Load::Lbu => "lbu",
        Load::Lhu => "lhu",
        Load::Lwu => "lwu",
    }
}

pub(crate) fn store_name(store: Store) -> &'static str
    ensures { result.now ≡ store_name store }
{
    match store {
        Store::Sb => "sb",
        Store::Sh => "sh",
        Store::Sw => "sw",
        Store::Sd => "sd",
    }
}

pub(crate) fn imm_name(op: ImmOp) -> &'static str
    ensures { result.now ≡ imm_name op }
{
    match op {
        ImmOp::Addi => "addi",
        ImmOp::Slti => "slti",
        ImmOp::Sltiu => "sltiu",
        ImmOp::Xori => "xori",
        ImmOp::Ori => "ori",
        ImmOp::Andi => "andi",
    }
}

/// A shift of 64 bits by a constant.
pub(crate) fn shift_name(shift: Shift) -> &'static str
    ensures { result.now ≡ shift_name shift }
{
    match shift {
        Shift::Sll => "slli",
        Shift::Srl => "srli",
        Shift::Sra => "srai",
    }
}

/// A shift of 32 bits by a constant.
pub(crate) fn word_shift_name(shift: Shift) -> &'static str
    ensures { result.now ≡ word_shift_name shift }
{
    match shift {
        Shift::Sll => "slliw",
        Shift::Srl => "srliw",
        Shift::Sra => "sraiw",
    }
}

pub(crate) fn op_name(op: RegOp) -> &'static str
    ensures { result.now ≡ op_name op }
{
    match op {
        RegOp::Add => "add",
        RegOp::Sll => "sll",
        RegOp::Slt => "slt",
        RegOp::Sltu => "sltu",
        RegOp::Xor => "xor",
        RegOp::Srl => "srl",
        RegOp::Or => "or",
        RegOp::And => "and",
        RegOp::Sub => "sub",
        RegOp::Sra => "sra",
        RegOp::Mul => "mul",
        RegOp::Mulh => "mulh",
        RegOp::Mulhsu => "mulhsu",
        RegOp::Mulhu => "mulhu",
        RegOp::Div => "div",
        RegOp::Divu => "divu",
        RegOp::Rem => "rem",
        RegOp::Remu => "remu",
    }
}

pub(crate) fn word_op_name(op: WordOp) -> &'static str
    ensures { result.now ≡ word_op_name op }
{
    match op {
        WordOp::Addw => "addw",
        WordOp::Sllw => "sllw",
        WordOp::Srlw => "srlw",
        WordOp::Subw => "subw",
        WordOp::Sraw => "sraw",
        WordOp::Mulw => "mulw",
        WordOp::Divw => "divw",
        WordOp::Divuw => "divuw",
        WordOp::Remw => "remw",
        WordOp::Remuw => "remuw",
    }
}
