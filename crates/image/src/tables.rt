//! The debug tables, row by row.

ghost use Rattle.std.specs.Prelude.{◌-◌, ◌≡◌, ◌≤◌, None, Some, length};
ghost use Rattle.std.specs.Int.{w32};
ghost use Rattle.debug_info.specs.Texts.{bytes_of, tables_of};
ghost use Rattle.image.specs.declared.fault.ImageFault.TheVariants.{Bad};
ghost use Rattle.image.specs.declared.fault.ImageKind.TheVariants as kinds;
ghost use Rattle.image.specs.Fields.{Gives, number};
ghost use Rattle.image.specs.Rows.{debug_of as debug_of_section, function_row as function_row_of, function_table, or_wrong, rows, site_row as site_row_of, site_table, text_row as text_row_of, text_table, variable_row as variable_row_of, variable_table};

use crate::fault::{ImageFault, ImageKind};
use crate::fields::{fault_at, u32_at};
use crate::rows::{function_row, site_row, text_row, variable_row};
use debug_info::{Debug, FunRow, SiteRow, VarRow};
use std::alloc::Global;

// The fault of a row, or of a count, whose first byte is the first that is left.
fn wrong(end: u64, rest: &[u8]) -> ImageFault
    ensures { result ≡ Bad (end - length rest.now) kinds.Debug }
{
    fault_at(ImageKind::Debug, end, rest)
}

fn count_at(end: u64, bytes: &[u8]) -> Result<(u32, &[u8]), ImageFault>
    ensures { Gives (λ x. (x.0, x.1.now)) result (or_wrong end bytes.now (number w32 bytes.now)) }
{
    match u32_at(bytes) {
        Some((count, rest)) => Ok((count, rest)),
        None => Err(wrong(end, bytes)),
    }
}

fn text_rows(
    alloc: Global,
    count: u32,
    end: u64,
    bytes: &[u8],
) -> Result<(Vec<String>, &[u8]), ImageFault>
    ensures { Gives (λ x. (bytes_of x.0.items, x.1.now)) result (rows (λ _ rest. text_row_of rest) (λ _. None) end count None bytes.now) }
{
    let mut texts = Vec::new(alloc);
    let mut rest = bytes;
    for _ in 0..count {
        let Some((text, after)) = text_row(rest) else {
            return Err(wrong(end, rest));
        };
        let text = String::from_str(alloc, text)?;
        texts.push(text)?;
        rest = after;
    }
    Ok((texts, rest))
}

fn site_rows(
    alloc: Global,
    texts: usize,
    count: u32,
    end: u64,
    bytes: &[u8],
) -> Result<(Vec<SiteRow>, &[u8]), ImageFault>
    ensures { Gives (λ x. (x.0.items, x.1.now)) result (rows (site_row_of texts) (λ r. Some r.pc) end count None bytes.now) }
{
    let mut sites = Vec::new(alloc);
    let mut before = None;
    let mut rest = bytes;
    for _ in 0..count {
        let Some((row, after)) = site_row(texts, before, rest) else {
            return Err(wrong(end, rest));
        };
        sites.push(row)?;
        before = Some(row.pc);
        rest = after;
    }
    Ok((sites, rest))
}

fn function_rows(
    alloc: Global,
    texts: usize,
    count: u32,
    end: u64,
    bytes: &[u8],
) -> Result<(Vec<FunRow>, &[u8]), ImageFault>
    ensures { Gives (λ x. (x.0.items, x.1.now)) result (rows (function_row_of texts) (λ r. Some r.start) end count None bytes.now) }
{
    let mut functions = Vec::new(alloc);
    let mut before = None;
    let mut rest = bytes;
    for _ in 0..count {
        let Some((row, after)) = function_row(texts, before, rest) else {
            return Err(wrong(end, rest));
        };
        functions.push(row)?;
        before = Some(row.start);
        rest = after;
    }
    Ok((functions, rest))
}

fn variable_rows(
    alloc: Global,
    texts: usize,
    count: u32,
    end: u64,
    bytes: &[u8],
) -> Result<(Vec<VarRow>, &[u8]), ImageFault>
    ensures { Gives (λ x. (x.0.items, x.1.now)) result (rows (λ _ rest. variable_row_of texts rest) (λ _. None) end count None bytes.now) }
{
    let mut variables = Vec::new(alloc);
    let mut rest = bytes;
    for _ in 0..count {
        let Some((row, after)) = variable_row(texts, rest) else {
            return Err(wrong(end, rest));
        };
        variables.push(row)?;
        rest = after;
    }
    Ok((variables, rest))
}

#[tactic(auto, unfolding(crate::specs::Rows::table))]
fn texts_of(alloc: Global, end: u64, bytes: &[u8]) -> Result<(Vec<String>, &[u8]), ImageFault>
    ensures { Gives (λ x. (bytes_of x.0.items, x.1.now)) result (text_table end bytes.now) }
{
    let (count, rest) = count_at(end, bytes)?;
    text_rows(alloc, count, end, rest)
}

#[tactic(auto, unfolding(crate::specs::Rows::table))]
fn sites_of(
    alloc: Global,
    texts: usize,
    end: u64,
    bytes: &[u8],
) -> Result<(Vec<SiteRow>, &[u8]), ImageFault>
    ensures { Gives (λ x. (x.0.items, x.1.now)) result (site_table texts end bytes.now) }
{
    let (count, rest) = count_at(end, bytes)?;
    site_rows(alloc, texts, count, end, rest)
}

#[tactic(auto, unfolding(crate::specs::Rows::table))]
fn functions_of(
    alloc: Global,
    texts: usize,
    end: u64,
    bytes: &[u8],
) -> Result<(Vec<FunRow>, &[u8]), ImageFault>
    ensures { Gives (λ x. (x.0.items, x.1.now)) result (function_table texts end bytes.now) }
{
    let (count, rest) = count_at(end, bytes)?;
    function_rows(alloc, texts, count, end, rest)
}

#[tactic(auto, unfolding(crate::specs::Rows::table))]
fn variables_of(
    alloc: Global,
    texts: usize,
    end: u64,
    bytes: &[u8],
) -> Result<(Vec<VarRow>, &[u8]), ImageFault>
    ensures { Gives (λ x. (x.0.items, x.1.now)) result (variable_table texts end bytes.now) }
{
    let (count, rest) = count_at(end, bytes)?;
    variable_rows(alloc, texts, count, end, rest)
}

/// The rows of the four tables, as they are read.
#[derive(Drop)]
pub struct Rows {
    pub texts: Vec<String>,
    pub sites: Vec<SiteRow>,
    pub functions: Vec<FunRow>,
    pub variables: Vec<VarRow>,
}

#[tactic(auto, unfolding(crate::specs::Rows::debug_of))]
fn rows_of(alloc: Global, end: u64, bytes: &[u8]) -> Result<Rows, ImageFault>
    ensures { Gives (λ x. tables_of x.texts.items x.sites.items x.functions.items x.variables.items) result (debug_of_section end bytes.now) }
{
    let (texts, rest) = texts_of(alloc, end, bytes)?;
    let (sites, rest) = sites_of(alloc, texts.len(), end, rest)?;
    let (functions, rest) = functions_of(alloc, texts.len(), end, rest)?;
    let (variables, rest) = variables_of(alloc, texts.len(), end, rest)?;
    if !rest.is_empty() {
        return Err(wrong(end, rest));
    }
    Ok(Rows {
        texts,
        sites,
        functions,
        variables,
    })
}

/// The tables of a section that ends at the end.
pub fn debug_of(alloc: Global, end: u64, bytes: &[u8]) -> Result<Debug, ImageFault>
    requires { length bytes.now ≤ 268435456 }
    ensures { Gives (λ x. x) result (debug_of_section end bytes.now) }
{
    let Rows {
        texts,
        sites,
        functions,
        variables,
    } = rows_of(alloc, end, bytes)?;
    Ok(Debug::new(texts, sites, functions, variables))
}
