//! The formats of instruction words: from registers, codes and an immediate to the fields, and immediates read back.

ghost use Rattle.std.specs.Prelude.{◌≡◌, ℕ, ◌^◌, ◌<◌};
ghost use Rattle.rv_isa.specs.Word.{r_format, i_format, s_format, b_format, u_format, j_format, i_imm, s_imm, b_half, u_imm, j_half};

use crate::codes::Code;
use crate::fields::{Field, Fields, Register};

/// The format R: an operation on two registers.
pub(crate) fn r_format(
    opcode: u32,
    rd: Register,
    code: Code,
    rs1: Register,
    rs2: Register,
) -> Fields
    requires { opcode < 2 ^ 7 }
    ensures { result ≡ r_format opcode rd code.funct3 rs1 rs2 code.funct7 }
{
    Fields {
        opcode: Field::of(opcode),
        rd,
        funct3: code.funct3,
        rs1,
        rs2,
        funct7: code.funct7,
    }
}

/// The format I: an immediate of 12 bits, its low five bits in the place of rs2 and the others in funct7.
pub(crate) fn i_format(
    opcode: u32,
    rd: Register,
    funct3: Field<3>,
    rs1: Register,
    immediate: Field<12>,
) -> Fields
    requires { opcode < 2 ^ 7 }
    ensures { result ≡ i_format opcode rd funct3 rs1 immediate }
{
    let bits = immediate.number();
    Fields {
        opcode: Field::of(opcode),
        rd,
        funct3,
        rs1,
        rs2: Field::of(bits % (1 << 5)),
        funct7: Field::of(bits >> 5),
    }
}

/// The format S: an immediate of 12 bits, its low five bits in the place of rd and the others in funct7.
pub(crate) fn s_format(
    opcode: u32,
    funct3: Field<3>,
    rs1: Register,
    rs2: Register,
    immediate: Field<12>,
) -> Fields
    requires { opcode < 2 ^ 7 }
    ensures { result ≡ s_format opcode funct3 rs1 rs2 immediate }
{
    let bits = immediate.number();
    Fields {
        opcode: Field::of(opcode),
        rd: Field::of(bits % (1 << 5)),
        funct3,
        rs1,
        rs2,
        funct7: Field::of(bits >> 5),
    }
}

/// The format B: half of an offset. Its highest bit is the sign in the highest bit of funct7, its next one
/// the lowest of rd, then six bits in funct7 and four in rd.
pub(crate) fn b_format(
    opcode: u32,
    funct3: Field<3>,
    rs1: Register,
    rs2: Register,
    half: Field<12>,
) -> Fields
    requires { opcode < 2 ^ 7 }
    ensures { result ≡ b_format opcode funct3 rs1 rs2 half }
{
    let bits = half.number();
    Fields {
        opcode: Field::of(opcode),
        rd: Field::of(bits % (1 << 4) * 2 + (bits >> 10) % 2),
        funct3,
        rs1,
        rs2,
        funct7: Field::of((bits >> 11) * (1 << 6) + (bits >> 4) % (1 << 6)),
    }
}

/// The format U: 20 bits over funct3, rs1, rs2 and funct7.
pub(crate) fn u_format(opcode: u32, rd: Register, immediate: Field<20>) -> Fields
    requires { opcode < 2 ^ 7 }
    ensures { result ≡ u_format opcode rd immediate }
{
    let bits = immediate.number();
    Fields {
        opcode: Field::of(opcode),
        rd,
        funct3: Field::of(bits % (1 << 3)),
        rs1: Field::of((bits >> 3) % (1 << 5)),
        rs2: Field::of((bits >> 8) % (1 << 5)),
        funct7: Field::of(bits >> 13),
    }
}

/// The format J: half of an offset, where the format U has its 20 bits. From the highest bit down these are
/// bit 19, bits 9 to 0, bit 10 and bits 18 to 11.
pub(crate) fn j_format(opcode: u32, rd: Register, half: Field<20>) -> Fields
    requires { opcode < 2 ^ 7 }
    ensures { result ≡ j_format opcode rd half }
{
    let bits = half.number();
    let sign = bits >> 19;
    let low = bits % (1 << 10);
    let middle = (bits >> 10) % 2;
    let high = (bits >> 11) % (1 << 8);
    u_format(
        opcode,
        rd,
        Field::of(sign * (1 << 19) + low * (1 << 9) + middle * (1 << 8) + high),
    )
}

impl Fields {
    /// The immediate of a word in the format I.
    pub(crate) fn i_immediate(self) -> Field<12>
        ensures { result ≡ i_imm self }
    {
        Field::of((self.funct7.number() << 5) + self.rs2.number())
    }

    /// The immediate of a word in the format S.
    pub(crate) fn s_immediate(self) -> Field<12>
        ensures { result ≡ s_imm self }
    {
        Field::of((self.funct7.number() << 5) + self.rd.number())
    }

    /// Half of the offset of a word in the format B.
    pub(crate) fn b_half(self) -> Field<12>
        ensures { result ≡ b_half self }
    {
        let sign = self.funct7.number() >> 6;
        let next = self.rd.number() % 2;
        let middle = self.funct7.number() % (1 << 6);
        let low = self.rd.number() >> 1;
        Field::of((sign << 11) + (next << 10) + (middle << 4) + low)
    }

    /// The 20 bits of a word in the format U.
    pub(crate) fn u_immediate(self) -> Field<20>
        ensures { result ≡ u_imm self }
    {
        let high = (self.funct7.number() << 13) + (self.rs2.number() << 8);
        Field::of(high + (self.rs1.number() << 3) + self.funct3.number())
    }

    /// Half of the offset of a word in the format J.
    pub(crate) fn j_half(self) -> Field<20>
        ensures { result ≡ j_half self }
    {
        let bits = self.u_immediate().number();
        let sign = bits >> 19;
        let low = (bits >> 9) % (1 << 10);
        let middle = (bits >> 8) % 2;
        let high = bits % (1 << 8);
        Field::of((sign << 19) + (high << 11) + (middle << 10) + low)
    }
}
