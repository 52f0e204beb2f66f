ghost use Rattle.std.specs.Prelude.{◌≡◌, ℕ, ◌^◌, ◌<◌, ◌↔◌, IsSome, IfSome};

use std::marker::Model;

/// A number of `BITS` bits: a field of an instruction word. Contracts see it as that number.
#[derive(Clone, Copy, Debug, PartialEq, Eq)]
pub struct Field<const BITS: u32> {
    number: u32,
}

impl<const BITS: u32> Model for Field<BITS> {
    ghost Value = { ℕ };

    ghost view = { λ f. f.number };

    ghost invariant = { λ f. f.number < 2 ^ BITS };

    ghost inverse = { λ n. record { number = n } };
}

/// The number of a register, from x0 to x31.
pub type Register = Field<5>;

impl<const BITS: u32> Field<BITS> {
    /// The field that holds this number, which has at most `BITS` bits.
    pub fn of(number: u32) -> Self
        requires { number < 2 ^ BITS }
        ensures { result ≡ number }
    {
        Field { number }
    }

    /// The number that the field holds.
    pub fn number(self) -> u32
        ensures value { result ≡ self.entry }
        ensures bits { result < 2 ^ BITS }
    {
        self.number
    }
}

/// The six fields of an instruction word in the format R. Every word of 32 bits has them, whatever its format.
/// (The RISC-V Instruction Set Manual, Volume I, "Base Instruction Formats".)
#[derive(Clone, Copy, Debug, PartialEq, Eq)]
pub struct Fields {
    /// Bits 6 to 0.
    pub opcode: Field<7>,
    /// Bits 11 to 7.
    pub rd: Field<5>,
    /// Bits 14 to 12.
    pub funct3: Field<3>,
    /// Bits 19 to 15.
    pub rs1: Field<5>,
    /// Bits 24 to 20.
    pub rs2: Field<5>,
    /// Bits 31 to 25.
    pub funct7: Field<7>,
}

#[tactic(auto, unfolding(crate::specs::Word::fields_of, crate::specs::Word::word_of))]
impl Fields {
    ghost use Rattle.rv_isa.specs.Word.{word_of, fields_of};

    /// The fields of a word.
    pub fn of_word(word: u32) -> Self
        ensures { result ≡ fields_of word }
    {
        Fields {
            opcode: Field::of(word % (1 << 7)),
            rd: Field::of((word >> 7) % (1 << 5)),
            funct3: Field::of((word >> 12) % (1 << 3)),
            rs1: Field::of((word >> 15) % (1 << 5)),
            rs2: Field::of((word >> 20) % (1 << 5)),
            funct7: Field::of(word >> 25),
        }
    }

    /// The word that has these fields.
    pub fn word(self) -> u32
        ensures { result ≡ word_of self }
    {
        (self.funct7.number() << 25)
            + (self.rs2.number() << 20)
            + (self.rs1.number() << 15)
            + (self.funct3.number() << 12)
            + (self.rd.number() << 7)
            + self.opcode.number()
    }
}
