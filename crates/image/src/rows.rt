//! Rows of the debug tables. A row that isn't whole or breaks a rule is None.

ghost use Rattle.std.specs.Prelude.{◌≡◌, ◌/◌, ◌%◌, ◌^◌, if◌then◌else◌, None, Some};
ghost use Rattle.debug_info.specs.Tables.{is_text};
ghost use Rattle.std.specs.Option.{option_map};
ghost use Rattle.image.specs.Rows.{class_of as class_of_code, function_row as function_row_of, location_of as location_of_number, optional_text as text_of_number, place_at as place_at_front, place_of as place_of_numbers, site_row as site_row_of, text_row as text_row_of, variable_row as variable_row_of};

use crate::fields::{u32_at, u64_at};
use crate::format::{NO_TEXT, TEXT_LIMIT};
use debug_info::{FunRow, Location, LocationClass, SitePlace, SiteRow, VarRow, is_above};

// The bytes as a text, where they are UTF-8 and not too many.
fn text_in(bytes: &[u8]) -> Option<&str>
    ensures { option_map (λ s. s.now) result ≡ (if is_text bytes.now then Some bytes.now else None) }
{
    if bytes.len() > TEXT_LIMIT {
        return None;
    }
    match str::from_utf8(bytes) {
        Ok(text) => Some(text),
        Err(_) => None,
    }
}

/// The text at the front: its length, and that many bytes of UTF-8.
#[tactic(auto, unfolding(crate::specs::Rows::text_row))]
pub fn text_row(bytes: &[u8]) -> Option<(&str, &[u8])>
    ensures { option_map (λ x. (x.0.now, x.1.now)) result ≡ text_row_of bytes.now }
{
    let (size, rest) = u32_at(bytes)?;
    let size = size as usize;
    if rest.len() < size {
        return None;
    }
    let (text, rest) = rest.split_at(size);
    let text = text_in(text)?;
    Some((text, rest))
}

#[tactic(auto, unfolding(crate::specs::Rows::place_of))]
fn place_of(source: u32, offset: u32, tail: u32) -> Option<SitePlace>
    ensures { result ≡ place_of_numbers source offset tail }
{
    match source {
        0 => Some(SitePlace::File { offset, tail }),
        1 if tail == 0 => Some(SitePlace::Prelude { text: offset }),
        _ => None,
    }
}

fn text_of(number: u32) -> Option<u32>
    ensures { result ≡ text_of_number number }
{
    if number == NO_TEXT {
        None
    } else {
        Some(number)
    }
}

#[tactic(auto, unfolding(crate::specs::Rows::place_at))]
fn place_at(bytes: &[u8]) -> Option<(SitePlace, &[u8])>
    ensures { option_map (λ x. (x.0, x.1.now)) result ≡ place_at_front bytes.now }
{
    let (offset, rest) = u32_at(bytes)?;
    let (tail, rest) = u32_at(rest)?;
    let (source, rest) = u32_at(rest)?;
    let place = place_of(source, offset, tail)?;
    Some((place, rest))
}

/// The site at the front, behind the one at the address before it.
#[tactic(auto, unfolding(crate::specs::Rows::site_row))]
pub fn site_row(texts: usize, before: Option<u64>, bytes: &[u8]) -> Option<(SiteRow, &[u8])>
    ensures { option_map (λ x. (x.0, x.1.now)) result ≡ site_row_of texts before bytes.now }
{
    let (pc, rest) = u64_at(bytes)?;
    let (place, rest) = place_at(rest)?;
    let (text, rest) = u32_at(rest)?;
    let text = text_of(text);
    let row = SiteRow { pc, place, text };
    if is_above(before, pc) && row.is_within(texts) {
        Some((row, rest))
    } else {
        None
    }
}

/// The function at the front, behind the one at the address before it.
#[tactic(auto, unfolding(crate::specs::Rows::function_row))]
pub fn function_row(texts: usize, before: Option<u64>, bytes: &[u8]) -> Option<(FunRow, &[u8])>
    ensures { option_map (λ x. (x.0, x.1.now)) result ≡ function_row_of texts before bytes.now }
{
    let (start, rest) = u64_at(bytes)?;
    let (name, rest) = u32_at(rest)?;
    let (words, rest) = u32_at(rest)?;
    let row = FunRow { start, name, words };
    if is_above(before, start) && row.is_within(texts) {
        Some((row, rest))
    } else {
        None
    }
}

#[tactic(auto, unfolding(crate::specs::Rows::class_of))]
fn class_of(code: u8) -> LocationClass
    ensures { result ≡ class_of_code code }
{
    match code {
        0 => LocationClass::DescriptorRegister,
        1 => LocationClass::WordRegister,
        2 => LocationClass::CharacterRegister,
        3 => LocationClass::ControlSlot,
        4 => LocationClass::WordSlot,
        5 => LocationClass::CharacterSlot,
        _ => LocationClass::Other { code },
    }
}

fn location_of(number: u32) -> Location
    ensures { result ≡ location_of_number number }
{
    Location {
        class: class_of((number / 0x100_0000) as u8),
        number: number % 0x100_0000,
    }
}

/// The variable at the front.
#[tactic(auto, unfolding(crate::specs::Rows::variable_row))]
pub fn variable_row(texts: usize, bytes: &[u8]) -> Option<(VarRow, &[u8])>
    ensures { option_map (λ x. (x.0, x.1.now)) result ≡ variable_row_of texts bytes.now }
{
    let (from, rest) = u64_at(bytes)?;
    let (to, rest) = u64_at(rest)?;
    let (name, rest) = u32_at(rest)?;
    let (location, rest) = u32_at(rest)?;
    let location = location_of(location);
    let row = VarRow {
        from,
        to,
        name,
        location,
    };
    if row.is_within(texts) {
        Some((row, rest))
    } else {
        None
    }
}
