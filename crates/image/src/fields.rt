//! Numbers, fields and parts of a file, from the front of what is left of it.

ghost use Rattle.std.specs.Prelude.{◌≡◌, ◌-◌, length, ◌==◌};
ghost use Rattle.std.specs.Option.{option_map};
ghost use Rattle.std.specs.Int.{w32, w64};
ghost use Rattle.image.specs.declared.fault.ImageFault.TheVariants.{Bad};
ghost use Rattle.image.specs.declared.fault.ImageKind.TheVariants as kinds;
ghost use Rattle.image.specs.Fields.{Gives, field, number, part as part_of};

use crate::fault::{ImageFault, ImageKind};

/// The fault of a kind at the first of the bytes that are left before the end.
pub fn fault_at(kind: ImageKind, end: u64, rest: &[u8]) -> ImageFault
    ensures { result ≡ Bad (end - length rest.now) kind }
{
    let left = rest.len() as u64;
    ImageFault::Bad {
        offset: end.saturating_sub(left),
        kind,
    }
}

/// The fault of a field that isn't whole, where all of the bytes are so many.
pub fn short(end: u64) -> ImageFault
    ensures { result ≡ Bad end kinds.Short }
{
    ImageFault::Bad {
        offset: end,
        kind: ImageKind::Short,
    }
}

/// The number in the first four bytes, and the bytes behind it.
pub fn u32_at(bytes: &[u8]) -> Option<(u32, &[u8])>
    ensures { option_map (λ x. (x.0, x.1.now)) result ≡ number w32 bytes.now }
{
    if bytes.len() < 4 {
        return None;
    }
    let (front, rest) = bytes.split_at(4);
    let number = u32::from_le_bytes([front[0], front[1], front[2], front[3]]);
    Some((number, rest))
}

/// The number in the first eight bytes, and the bytes behind it.
pub fn u64_at(bytes: &[u8]) -> Option<(u64, &[u8])>
    ensures { option_map (λ x. (x.0, x.1.now)) result ≡ number w64 bytes.now }
{
    if bytes.len() < 8 {
        return None;
    }
    let (front, rest) = bytes.split_at(8);
    let number = u64::from_le_bytes([
        front[0], front[1], front[2], front[3], front[4], front[5], front[6], front[7],
    ]);
    Some((number, rest))
}

/// A field of four bytes that has to be the wanted number: the bytes behind it.
#[tactic(auto, unfolding(crate::specs::Fields::field))]
pub fn fixed_field(
    wanted: u32,
    kind: ImageKind,
    end: u64,
    bytes: &[u8],
) -> Result<&[u8], ImageFault>
    ensures { Gives (λ rest. (wanted, rest.now)) result (field w32 (λ n. n == wanted) kind end bytes.now) }
{
    let Some((number, rest)) = u32_at(bytes) else {
        return Err(short(end));
    };
    if number != wanted {
        return Err(fault_at(kind, end, bytes));
    }
    Ok(rest)
}

/// So many bytes, and the bytes behind them.
#[tactic(auto, unfolding(crate::specs::Fields::part))]
pub fn part(size: u64, end: u64, bytes: &[u8]) -> Result<(&[u8], &[u8]), ImageFault>
    ensures { Gives (λ x. (x.0.now, x.1.now)) result (part_of size end bytes.now) }
{
    if (bytes.len() as u64) < size {
        return Err(short(end));
    }
    let (front, rest) = bytes.split_at(size as usize);
    Ok((front, rest))
}
