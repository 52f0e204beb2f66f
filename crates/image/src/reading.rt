//! An image, read from bytes.

ghost use Rattle.std.specs.Prelude.{◌≡◌, ◌≤◌, IfOk, Ok, length, nat_le};
ghost use Rattle.std.specs.Int.{w64};
ghost use Rattle.image.specs.declared.fault.ImageKind.TheVariants as kinds;
ghost use Rattle.image.specs.Content.{Content, IsImage, content, spelling};
ghost use Rattle.image.specs.Fields.{Gives, field};
ghost use Rattle.image.specs.Format.{header_of as header_of_file, image_of, is_code_length as is_length_of_code, is_entry as is_entry_of, is_statics_length as is_length_of_statics, parts_of as parts_of_file};
ghost use Rattle.image.specs.View.{header, view};

use crate::fault::{ImageFault, ImageKind};
use crate::fields::{fault_at, fixed_field, part, short, u64_at};
use crate::format::{CODE_LIMIT, CODE_START, DEBUG_LIMIT, MAGIC, STATICS_LIMIT, VERSION};
use crate::image::Image;
use crate::tables::debug_of;
use debug_info::Debug;
use std::alloc::Global;

/// The lengths of the three parts, and the entry.
#[derive(Clone, Copy)]
pub struct Lengths {
    pub code: u64,
    pub statics: u64,
    pub debug: u64,
    pub entry: u64,
}

fn is_code_length(n: u64) -> bool
    ensures { result ≡ is_length_of_code n }
{
    n % 4 == 0 && n >= 4 && n <= CODE_LIMIT
}

fn is_statics_length(n: u64) -> bool
    ensures { result ≡ is_length_of_statics n }
{
    n % 8 == 0 && n <= STATICS_LIMIT
}

fn is_entry(code: u64, n: u64) -> bool
    ensures { result ≡ is_entry_of code n }
{
    n % 4 == 0 && n >= CODE_START && n - CODE_START < code
}

#[tactic(auto, unfolding(crate::specs::Fields::field))]
fn code_field(end: u64, bytes: &[u8]) -> Result<(u64, &[u8]), ImageFault>
    ensures { Gives (λ x. (x.0, x.1.now)) result (field w64 is_length_of_code kinds.CodeLength end bytes.now) }
{
    let Some((number, rest)) = u64_at(bytes) else {
        return Err(short(end));
    };
    if !is_code_length(number) {
        return Err(fault_at(ImageKind::CodeLength, end, bytes));
    }
    Ok((number, rest))
}

#[tactic(auto, unfolding(crate::specs::Fields::field))]
fn statics_field(end: u64, bytes: &[u8]) -> Result<(u64, &[u8]), ImageFault>
    ensures { Gives (λ x. (x.0, x.1.now)) result (field w64 is_length_of_statics kinds.StaticsLength end bytes.now) }
{
    let Some((number, rest)) = u64_at(bytes) else {
        return Err(short(end));
    };
    if !is_statics_length(number) {
        return Err(fault_at(ImageKind::StaticsLength, end, bytes));
    }
    Ok((number, rest))
}

#[tactic(auto, unfolding(crate::specs::Fields::field))]
fn debug_field(end: u64, bytes: &[u8]) -> Result<(u64, &[u8]), ImageFault>
    ensures { Gives (λ x. (x.0, x.1.now)) result (field w64 (λ n. nat_le n 268435456) kinds.DebugLength end bytes.now) }
{
    let Some((number, rest)) = u64_at(bytes) else {
        return Err(short(end));
    };
    if number > DEBUG_LIMIT {
        return Err(fault_at(ImageKind::DebugLength, end, bytes));
    }
    Ok((number, rest))
}

#[tactic(auto, unfolding(crate::specs::Fields::field))]
fn entry_field(code: u64, end: u64, bytes: &[u8]) -> Result<(u64, &[u8]), ImageFault>
    ensures { Gives (λ x. (x.0, x.1.now)) result (field w64 (is_entry_of code) kinds.Entry end bytes.now) }
{
    let Some((number, rest)) = u64_at(bytes) else {
        return Err(short(end));
    };
    if !is_entry(code, number) {
        return Err(fault_at(ImageKind::Entry, end, bytes));
    }
    Ok((number, rest))
}

#[tactic(auto, unfolding(crate::specs::Format::header_of))]
fn header_of(end: u64, bytes: &[u8]) -> Result<(Lengths, &[u8]), ImageFault>
    ensures { Gives (λ x. (header x.0, x.1.now)) result (header_of_file end bytes.now) }
{
    let rest = fixed_field(MAGIC, ImageKind::Magic, end, bytes)?;
    let rest = fixed_field(VERSION, ImageKind::Version, end, rest)?;
    let (code, rest) = code_field(end, rest)?;
    let (statics, rest) = statics_field(end, rest)?;
    let (debug, rest) = debug_field(end, rest)?;
    let (entry, rest) = entry_field(code, end, rest)?;
    let lengths = Lengths {
        code,
        statics,
        debug,
        entry,
    };
    Ok((lengths, rest))
}

/// The three parts behind the header, and the entry.
#[derive(Drop)]
pub struct Parts {
    pub code: Vec<u8>,
    pub statics: Vec<u8>,
    pub debug: Debug,
    pub entry: u64,
}

#[tactic(auto, unfolding(crate::specs::Format::parts_of))]
fn parts_of(alloc: Global, end: u64, lengths: Lengths, rest: &[u8]) -> Result<Parts, ImageFault>
    requires { lengths.debug ≤ 268435456 }
    ensures { Gives (λ x. content x.code.items x.statics.items x.debug x.entry) result (parts_of_file end (header lengths) rest.now) }
{
    let (code, rest) = part(lengths.code, end, rest)?;
    let (statics, rest) = part(lengths.statics, end, rest)?;
    let (debug, rest) = part(lengths.debug, end, rest)?;
    let left = rest.len() as u64;
    let debug = debug_of(alloc, end.saturating_sub(left), debug)?;
    if !rest.is_empty() {
        return Err(fault_at(ImageKind::Trailing, end, rest));
    }
    let code = Vec::from_slice(alloc, code)?;
    let statics = Vec::from_slice(alloc, statics)?;
    Ok(Parts {
        code,
        statics,
        debug,
        entry: lengths.entry,
    })
}

#[tactic(auto, unfolding(crate::specs::Format::image_of))]
fn all(alloc: Global, bytes: &[u8]) -> Result<Parts, ImageFault>
    ensures { Gives (λ x. content x.code.items x.statics.items x.debug x.entry) result (image_of bytes.now) }
{
    let end = bytes.len() as u64;
    let (lengths, rest) = header_of(end, bytes)?;
    parts_of(alloc, end, lengths, rest)
}

/// The image that the bytes spell, or their first fault, or want of memory. It takes time in
/// proportion to the bytes.
pub fn read(alloc: Global, bytes: &[u8]) -> Result<Image, ImageFault>
    // What is read keeps the rules and is spelled so.
    ensures found { IfOk result (λ i. IsImage (view i) × (bytes.now ≡ spelling (view i))) }
    // What is spelled so is read, unless memory runs out.
    ensures only { (i : Content) → IsImage i → bytes.now ≡ spelling i → Gives view result (Ok i) }
    // Which image or which fault it is.
    ensures exact { Gives view result (image_of bytes.now) }
{
    let Parts {
        code,
        statics,
        debug,
        entry,
    } = all(alloc, bytes)?;
    Ok(Image {
        version: VERSION,
        code,
        statics,
        debug,
        entry,
    })
}
