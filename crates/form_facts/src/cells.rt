// Which variables, blocks and tagbodies have a cell.
ghost use Rattle.std.specs.Prelude.{◌≡◌, [], IfOk, flat_map, filter};
ghost use Rattle.core_form.specs.Facts.{has_number, lookup, union};
ghost use Rattle.closed_copies.specs.Table.{as_list};
ghost use Rattle.closed_copies.specs.Walked.{tags_list};
ghost use Rattle.form_facts.specs.Parts.{set_by, left_by};
ghost use Rattle.form_facts.specs.Read.{part_of, parts_list};

use crate::numbers::Numbers;
use crate::parts::Part;
use closed_copies::functions::Tag;
use std::alloc::{AllocError, Global};

/// The tagbody in which a tag stands.
fn tagbody_of(tags: &[Tag], number: u32) -> Option<u32>
    ensures { result ≡ lookup number (tags_list tags.now) }
{
    for tag in tags {
        if number == tag.number {
            return Some(tag.tagbody);
        }
    }
    None
}

/// The block or tagbody that a part leaves.
fn left(part: Part<'_>, tags: &[Tag]) -> Option<u32>
    ensures { as_list result ≡ left_by (tags_list tags.now) (part_of part.entry) }
{
    match part {
        Part::Leave(block) => Some(block),
        Part::Go(tag) => tagbody_of(tags, tag),
        Part::Read(_) | Part::Set(_, _) | Part::Bind(_) | Part::Compute(_) | Part::Make(_) => None,
    }
}

/// The variables that are set.
fn set_in(alloc: Global, parts: &[Part<'_>]) -> Result<Vec<u32>, AllocError>
    ensures { IfOk result (λ numbers. numbers.items ≡ flat_map set_by (parts_list parts.now)) }
{
    let mut numbers = Vec::new(alloc);
    for part in parts {
        if let Part::Set(number, _) = *part {
            numbers.push(number)?;
        }
    }
    Ok(numbers)
}

/// The blocks and tagbodies that are left.
fn left_in(alloc: Global, parts: &[Part<'_>], tags: &[Tag]) -> Result<Vec<u32>, AllocError>
    ensures { IfOk result (λ numbers. numbers.items ≡ flat_map (left_by (tags_list tags.now)) (parts_list parts.now)) }
{
    let mut numbers = Vec::new(alloc);
    for part in parts {
        if let Some(number) = left(*part, tags) {
            numbers.push(number)?;
        }
    }
    Ok(numbers)
}

/// What is set or left.
///
/// # Errors
/// Want of memory alone.
pub fn changed_in(alloc: Global, parts: &[Part<'_>], tags: &[Tag]) -> Result<Numbers, AllocError>
    ensures { IfOk result (λ changed. changed ≡ union (union [] (flat_map set_by (parts_list parts.now))) (flat_map (left_by (tags_list tags.now)) (parts_list parts.now))) }
{
    let mut changed = Numbers::of(alloc, &set_in(alloc, parts)?)?;
    changed.unite(&left_in(alloc, parts, tags)?)?;
    Ok(changed)
}

/// Those of some numbers that are among others.
pub(crate) fn common(
    alloc: Global,
    numbers: &[u32],
    among: &Numbers,
) -> Result<Vec<u32>, AllocError>
    ensures { IfOk result (λ both. both.items ≡ filter (λ x. has_number x among.now) numbers.now) }
{
    let mut both = Vec::new(alloc);
    for number in numbers {
        if among.has(*number) {
            both.push(*number)?;
        }
    }
    Ok(both)
}

/// What is closed over and changed.
///
/// # Errors
/// Want of memory alone.
pub fn cells_in(alloc: Global, closed: &Numbers, changed: &Numbers) -> Result<Numbers, AllocError>
    ensures { IfOk result (λ cells. cells ≡ union [] (filter (λ x. has_number x changed.now) closed.now)) }
{
    let both = common(alloc, closed.as_slice(), changed)?;
    Numbers::of(alloc, &both)
}
