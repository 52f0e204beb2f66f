//! What the operations give, on words of 64 bits: RISC-V Instruction Set Manual, Volume I, the chapters on RV32I,
//! RV64I and "M".
ghost use Rattle.std.specs.Prelude.{◌≡◌, ◌+◌, ◌-◌, ◌*◌, ◌%◌, ◌/◌, ◌^◌, ◌<◌, ◌≤◌, ◌==◌, ◌*ℤ◌, pos, if◌then◌else◌, int_lt, int_div, int_rem};
ghost use Rattle.std.specs.Int.{w64, from_bool, int_shr, IsNonZero};
ghost use Rattle.rv_isa.specs.Operations.{extended, plus, minus, signed, unsigned, low, low_signed, word, upper_value, imm_value, shift_value, word_shift_value, op_value, word_op_value, is_taken, load_value};

use rv_isa::instr::{Branch, ImmOp, Load, RegOp, Shift, Upper, WordOp};

/// A number of this many bits, extended by its sign to 64 bits.
pub(crate) fn extended(bits: u32, number: u64) -> u64
    requires some_bits { 0 < bits }
    requires few_bits { bits < 64 }
    requires fits { number < 2 ^ bits }
    ensures { result ≡ extended bits number }
{
    let half = 1 << (bits - 1);
    if number < half {
        number
    } else {
        number + (u64::MAX - (2 * half - 1))
    }
}

/// The low 32 bits.
fn low(a: u64) -> u32
    ensures { result ≡ low a }
{
    (a % 0x1_0000_0000) as u32
}

/// The low 32 bits, extended by their sign.
pub(crate) fn word(a: u64) -> u64
    ensures { result ≡ word a }
{
    extended(32, a % 0x1_0000_0000)
}

/// Whether a word is less than another, both signed.
fn is_less(a: u64, b: u64) -> bool
    ensures { result ≡ int_lt (signed a) (signed b) }
{
    a.cast_signed() < b.cast_signed()
}

/// A signed word shifted to the right.
fn shifted_right(a: u64, k: u32) -> u64
    requires { k < 64 }
    ensures { result ≡ unsigned (int_shr (signed a) k) }
{
    (a.cast_signed() >> k).cast_unsigned()
}

/// The signed low 32 bits shifted to the right.
fn low_shifted_right(a: u64, k: u32) -> u64
    requires { k < 32 }
    ensures { result ≡ unsigned (int_shr (low_signed a) k) }
{
    i64::from(low(a).cast_signed() >> k).cast_unsigned()
}

/// The high 64 bits of a signed number of 128 bits.
fn high_half(product: i128) -> u64
    ensures { result ≡ unsigned (int_shr product 64) }
{
    ((product >> 64) as i64).cast_unsigned()
}

/// The product of two signed numbers.
fn product(a: i64, b: i64) -> i128
    ensures { result ≡ a *ℤ b }
{
    i128::from(a) * i128::from(b)
}

/// The high 64 bits of the product, both operands signed.
fn high_product(a: u64, b: u64) -> u64
    ensures { result ≡ unsigned (int_shr (signed a *ℤ signed b) 64) }
{
    high_half(product(a.cast_signed(), b.cast_signed()))
}

/// The high 64 bits of the product, the first operand signed.
fn high_mixed_product(a: u64, b: u64) -> u64
    ensures { result ≡ unsigned (int_shr (signed a *ℤ pos b) 64) }
{
    high_half(i128::from(a.cast_signed()) * i128::from(b))
}

/// The high 64 bits of the product, both operands unsigned.
fn high_unsigned_product(a: u64, b: u64) -> u64
    ensures { result ≡ a * b / 2 ^ 64 }
{
    ((u128::from(a) * u128::from(b)) >> 64) as u64
}

/// The quotient of two signed numbers, rounded toward zero, as a word.
fn whole_quotient(dividend: i64, divisor: i64) -> u64
    requires { IsNonZero w64 divisor }
    ensures { result ≡ unsigned (int_div dividend divisor) }
{
    dividend.wrapping_div(divisor).cast_unsigned()
}

/// The signed quotient, rounded toward zero.
fn quotient(a: u64, b: u64) -> u64
    ensures { result ≡ (if b == 0 then 2 ^ 64 - 1 else unsigned (int_div (signed a) (signed b))) }
{
    if b == 0 {
        u64::MAX
    } else {
        whole_quotient(a.cast_signed(), b.cast_signed())
    }
}

/// The signed remainder, with the sign of the dividend.
fn remainder(a: u64, b: u64) -> u64
    ensures { result ≡ (if b == 0 then a else unsigned (int_rem (signed a) (signed b))) }
{
    if b == 0 {
        a
    } else {
        a.cast_signed()
            .wrapping_rem(b.cast_signed())
            .cast_unsigned()
    }
}

/// LUI and AUIPC.
pub(crate) fn upper_value(op: Upper, pc: u64, number: u32) -> u64
    requires { number < 2 ^ 20 }
    ensures { result ≡ upper_value op pc number }
{
    let upper = extended(32, u64::from(number) * 0x1000);
    match op {
        Upper::Lui => upper,
        Upper::Auipc => pc.wrapping_add(upper),
    }
}

/// The operations with an immediate.
pub(crate) fn imm_value(op: ImmOp, a: u64, b: u64) -> u64
    ensures { result ≡ imm_value op a b }
{
    match op {
        ImmOp::Addi => a.wrapping_add(b),
        ImmOp::Slti => u64::from(is_less(a, b)),
        ImmOp::Sltiu => u64::from(a < b),
        ImmOp::Xori => a ^ b,
        ImmOp::Ori => a | b,
        ImmOp::Andi => a & b,
    }
}

/// The shifts of a word by `k` bits.
pub(crate) fn shift_value(op: Shift, a: u64, k: u32) -> u64
    requires { k < 64 }
    ensures { result ≡ shift_value op a k }
{
    match op {
        Shift::Sll => a << k,
        Shift::Srl => a >> k,
        Shift::Sra => shifted_right(a, k),
    }
}

/// The shifts of the low 32 bits by `k` bits.
pub(crate) fn word_shift_value(op: Shift, a: u64, k: u32) -> u64
    requires { k < 32 }
    ensures { result ≡ word_shift_value op a k }
{
    match op {
        Shift::Sll => word(u64::from(low(a)) << k),
        Shift::Srl => word(u64::from(low(a)) >> k),
        Shift::Sra => low_shifted_right(a, k),
    }
}

/// The operations on two registers.
pub(crate) fn op_value(op: RegOp, a: u64, b: u64) -> u64
    ensures { result ≡ op_value op a b }
{
    match op {
        RegOp::Add => a.wrapping_add(b),
        RegOp::Sub => a.wrapping_sub(b),
        RegOp::Sll => shift_value(Shift::Sll, a, (b % 64) as u32),
        RegOp::Srl => shift_value(Shift::Srl, a, (b % 64) as u32),
        RegOp::Sra => shift_value(Shift::Sra, a, (b % 64) as u32),
        RegOp::Slt => u64::from(is_less(a, b)),
        RegOp::Sltu => u64::from(a < b),
        RegOp::Xor => a ^ b,
        RegOp::Or => a | b,
        RegOp::And => a & b,
        RegOp::Mul => a.wrapping_mul(b),
        RegOp::Mulh => high_product(a, b),
        RegOp::Mulhsu => high_mixed_product(a, b),
        RegOp::Mulhu => high_unsigned_product(a, b),
        RegOp::Div => quotient(a, b),
        RegOp::Divu => a.checked_div(b).unwrap_or(u64::MAX),
        RegOp::Rem => remainder(a, b),
        RegOp::Remu => a.checked_rem(b).unwrap_or(a),
    }
}

/// The signed quotient of the low 32 bits.
fn word_quotient(a: u64, b: u64) -> u64
    ensures { result ≡ (if low b == 0 then 2 ^ 64 - 1 else word (unsigned (int_div (low_signed a) (low_signed b)))) }
{
    let divisor = low(b);
    if divisor == 0 {
        return u64::MAX;
    }
    let dividend = i64::from(low(a).cast_signed());
    word(whole_quotient(dividend, i64::from(divisor.cast_signed())))
}

/// The signed remainder of the low 32 bits.
fn word_remainder(a: u64, b: u64) -> u64
    ensures { result ≡ (if low b == 0 then word a else unsigned (int_rem (low_signed a) (low_signed b))) }
{
    let divisor = low(b);
    if divisor == 0 {
        return word(a);
    }
    let dividend = i64::from(low(a).cast_signed());
    dividend
        .wrapping_rem(i64::from(divisor.cast_signed()))
        .cast_unsigned()
}

/// The operations on the low 32 bits of two registers.
pub(crate) fn word_op_value(op: WordOp, a: u64, b: u64) -> u64
    ensures { result ≡ word_op_value op a b }
{
    match op {
        WordOp::Addw => word(a.wrapping_add(b)),
        WordOp::Subw => word(a.wrapping_sub(b)),
        WordOp::Sllw => word_shift_value(Shift::Sll, a, (b % 32) as u32),
        WordOp::Srlw => word_shift_value(Shift::Srl, a, (b % 32) as u32),
        WordOp::Sraw => word_shift_value(Shift::Sra, a, (b % 32) as u32),
        WordOp::Mulw => word(a.wrapping_mul(b)),
        WordOp::Divw => word_quotient(a, b),
        WordOp::Divuw => word_unsigned_quotient(a, b),
        WordOp::Remw => word_remainder(a, b),
        WordOp::Remuw => word_unsigned_remainder(a, b),
    }
}

/// The unsigned quotient of the low 32 bits.
fn word_unsigned_quotient(a: u64, b: u64) -> u64
    ensures { result ≡ (if low b == 0 then 2 ^ 64 - 1 else word (low a / low b)) }
{
    let divisor = low(b);
    if divisor == 0 {
        return u64::MAX;
    }
    word(u64::from(low(a) / divisor))
}

/// The unsigned remainder of the low 32 bits.
fn word_unsigned_remainder(a: u64, b: u64) -> u64
    ensures { result ≡ (if low b == 0 then word a else word (low a % low b)) }
{
    let divisor = low(b);
    if divisor == 0 {
        return word(a);
    }
    word(u64::from(low(a) % divisor))
}

/// Whether a branch is taken.
pub(crate) fn is_taken(op: Branch, a: u64, b: u64) -> bool
    ensures { result ≡ is_taken op a b }
{
    match op {
        Branch::Beq => a == b,
        Branch::Bne => a != b,
        Branch::Blt => is_less(a, b),
        Branch::Bge => !is_less(a, b),
        Branch::Bltu => a < b,
        Branch::Bgeu => a >= b,
    }
}
