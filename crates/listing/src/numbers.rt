//! Numbers of a listing.

ghost use Rattle.std.specs.Prelude.{◌≡◌, ◌*◌, ◌^◌, ◌<◌, OnOk};
ghost use Rattle.std.specs.Fmt.{signed_decimal};
ghost use Rattle.listing.specs.Growth.{Appends};
ghost use Rattle.listing.specs.Numbers.{hexadecimal, digit_character, signed_of};

use itoa::Buffer;
use rv_isa::fields::Field;
use std::alloc::AllocError;

/// The character of a digit, in lower case.
fn digit_character(digit: u64) -> char
    requires { digit < 16 }
    ensures { result ≡ digit_character digit }
{
    let digit = digit as u8;
    let character = if digit < 10 {
        b'0' + digit
    } else {
        b'a' + (digit - 10)
    };
    character as char
}

/// Appends the last hexadecimal digits of a number, this many.
#[tactic(auto, unfolding(crate::specs::Numbers::hexadecimal))]
pub(crate) fn add_hexadecimal(out: &mut String, digits: u32, number: u64) -> Result<(), AllocError>
    ensures { OnOk result (Appends out.old out.new (hexadecimal digits number)) }
{
    if digits == 0 {
        return Ok(());
    }
    add_hexadecimal(out, digits - 1, number / 16)?;
    out.push(digit_character(number % 16))
}

/// Appends a number in decimal.
pub(crate) fn add_decimal(out: &mut String, number: i32) -> Result<(), AllocError>
    ensures { OnOk result (Appends out.old out.new (signed_decimal number)) }
{
    let mut buffer = Buffer::new();
    out.push_str(buffer.format(number))
}

/// An immediate of 12 bits with its sign.
pub(crate) fn immediate(field: Field<12>) -> i32
    ensures { result ≡ signed_of 12 field }
{
    let number = field.number() as i32;
    if number < 1 << 11 {
        number
    } else {
        number - (1 << 12)
    }
}

/// The offset of a branch, of which the field has half.
pub(crate) fn branch_offset(half: Field<12>) -> i32
    ensures { result ≡ signed_of 13 (half * 2) }
{
    let offset = half.number() as i32 * 2;
    if offset < 1 << 12 {
        offset
    } else {
        offset - (1 << 13)
    }
}

/// The offset of a jump, of which the field has half.
pub(crate) fn jump_offset(half: Field<20>) -> i32
    ensures { result ≡ signed_of 21 (half * 2) }
{
    let offset = half.number() as i32 * 2;
    if offset < 1 << 20 {
        offset
    } else {
        offset - (1 << 21)
    }
}
