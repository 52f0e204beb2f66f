//! The text of code.

ghost use Rattle.std.specs.Prelude.{◌≡◌, ◌+◌, ◌≤◌, length, OnOk, IfOk, string_bytes};
ghost use Rattle.std.specs.Int.{w32, from_le_bytes};
ghost use Rattle.rv_isa.specs.Encoding.{decoded};
ghost use Rattle.listing.specs.Growth.{Appends};
ghost use Rattle.listing.specs.Text.{register_text, with_three, with_two, with_one, with_place, instr_text};
ghost use Rattle.listing.specs.Text.{word_text, bytes_at, line_of, listing_of};

use crate::names::{
    branch_name, imm_name, load_name, op_name, shift_name, store_name, upper_name, word_op_name,
    word_shift_name,
};
use crate::numbers::{add_decimal, add_hexadecimal, branch_offset, immediate, jump_offset};
use rv_isa::fields::Register;
use rv_isa::instr::Instr;
use rv_isa::words::decode;
use std::alloc::{AllocError, Global};

/// Appends a register.
fn add_register(out: &mut String, register: Register) -> Result<(), AllocError>
    ensures { OnOk result (Appends out.old out.new (register_text register)) }
{
    out.push_str("x")?;
    add_decimal(out, register.number() as i32)
}

/// Appends a name and three registers.
fn add_three(
    out: &mut String,
    name: &str,
    a: Register,
    b: Register,
    c: Register,
) -> Result<(), AllocError>
    ensures { OnOk result (Appends out.old out.new (with_three name.now a b c)) }
{
    out.push_str(name)?;
    out.push_str(" ")?;
    add_register(out, a)?;
    out.push_str(", ")?;
    add_register(out, b)?;
    out.push_str(", ")?;
    add_register(out, c)
}

/// Appends a name, two registers and a number.
fn add_two(
    out: &mut String,
    name: &str,
    a: Register,
    b: Register,
    number: i32,
) -> Result<(), AllocError>
    ensures { OnOk result (Appends out.old out.new (with_two name.now a b number)) }
{
    out.push_str(name)?;
    out.push_str(" ")?;
    add_register(out, a)?;
    out.push_str(", ")?;
    add_register(out, b)?;
    out.push_str(", ")?;
    add_decimal(out, number)
}

/// Appends a name, a register and a number.
fn add_one(out: &mut String, name: &str, a: Register, number: i32) -> Result<(), AllocError>
    ensures { OnOk result (Appends out.old out.new (with_one name.now a number)) }
{
    out.push_str(name)?;
    out.push_str(" ")?;
    add_register(out, a)?;
    out.push_str(", ")?;
    add_decimal(out, number)
}

/// Appends a name, a register and a place in memory.
fn add_place(
    out: &mut String,
    name: &str,
    a: Register,
    number: i32,
    base: Register,
) -> Result<(), AllocError>
    ensures { OnOk result (Appends out.old out.new (with_place name.now a number base)) }
{
    add_one(out, name, a, number)?;
    out.push_str("(")?;
    add_register(out, base)?;
    out.push_str(")")
}

/// Appends an instruction.
fn add_instr(out: &mut String, instr: Instr) -> Result<(), AllocError>
    ensures { OnOk result (Appends out.old out.new (instr_text instr)) }
{
    match instr {
        Instr::Upper(upper, rd, bits) => add_one(out, upper_name(upper), rd, bits.number() as i32),
        Instr::Jal(rd, half) => add_one(out, "jal", rd, jump_offset(half)),
        Instr::Jalr(rd, rs1, bits) => add_two(out, "jalr", rd, rs1, immediate(bits)),
        Instr::Branch(branch, rs1, rs2, half) => {
            add_two(out, branch_name(branch), rs1, rs2, branch_offset(half))
        }
        Instr::Load(load, rd, rs1, bits) => {
            add_place(out, load_name(load), rd, immediate(bits), rs1)
        }
        Instr::Store(store, rs1, rs2, bits) => {
            add_place(out, store_name(store), rs2, immediate(bits), rs1)
        }
        Instr::Imm(op, rd, rs1, bits) => add_two(out, imm_name(op), rd, rs1, immediate(bits)),
        Instr::Shift(shift, rd, rs1, amount) => {
            add_two(out, shift_name(shift), rd, rs1, amount.number() as i32)
        }
        Instr::Addiw(rd, rs1, bits) => add_two(out, "addiw", rd, rs1, immediate(bits)),
        Instr::ShiftWord(shift, rd, rs1, amount) => {
            add_two(out, word_shift_name(shift), rd, rs1, amount.number() as i32)
        }
        Instr::Op(op, rd, rs1, rs2) => add_three(out, op_name(op), rd, rs1, rs2),
        Instr::WordOp(op, rd, rs1, rs2) => add_three(out, word_op_name(op), rd, rs1, rs2),
        Instr::Ecall => out.push_str("ecall"),
    }
}

/// Appends what a word says.
fn add_word(out: &mut String, word: u32) -> Result<(), AllocError>
    ensures { OnOk result (Appends out.old out.new (word_text (decoded word))) }
{
    match decode(word) {
        Some(instr) => add_instr(out, instr),
        None => out.push_str("unknown"),
    }
}

/// Appends the line of a word at an address.
#[tactic(auto, unfolding(crate::specs::Text::line_of))]
fn add_line(out: &mut String, address: u64, word: u32) -> Result<(), AllocError>
    ensures { OnOk result (Appends out.old out.new (line_of address word)) }
{
    add_hexadecimal(out, 8, address)?;
    out.push_str(": ")?;
    add_hexadecimal(out, 8, u64::from(word))?;
    out.push_str(" ")?;
    add_word(out, word)?;
    out.push_str("\n")
}

/// The word of four bytes that stands in code at a place.
fn word_at(code: &[u8], at: usize) -> u32
    requires { at + 4 ≤ length code.now }
    ensures { result ≡ from_le_bytes w32 (bytes_at code.now at) }
{
    u32::from_le_bytes([code[at], code[at + 1], code[at + 2], code[at + 3]])
}

/// The text of code: a line for each of its words of four bytes.
///
/// Code begins at the address 0x00010000. The last bytes, where they are no whole word, have no line.
pub fn listing(alloc: Global, code: &[u8]) -> Result<String, AllocError>
    ensures { IfOk result (λ text. string_bytes text ≡ listing_of code.now) }
{
    let mut text = String::new(alloc);
    for k in 0..code.len() / 4 {
        let address = 0x0001_0000 + 4 * k as u64;
        add_line(&mut text, address, word_at(code, 4 * k))?;
    }
    Ok(text)
}

#[cfg(test)]
mod tests;
