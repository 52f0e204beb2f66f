// What the parts of a form tell, as lists in the order of the text.
ghost use Rattle.std.specs.Prelude.{◌≡◌, IfOk, flat_map};
ghost use Rattle.std.specs.Option.{option_to_list};
ghost use Rattle.form_names.specs.Parts.{function_of, extent_of, block_of};
ghost use Rattle.form_names.specs.Read.{texts_list, part_of, parts_list, tags_list, tag_texts_of, local_number_of};

use crate::parts::{Part, TagName, Text};
use lisp_base::SymId;
use std::alloc::{AllocError, Global};

/// The functions.
pub fn texts_in<'a>(alloc: Global, parts: &[Part<'a>]) -> Result<Vec<Text<'a>>, AllocError>
    ensures { IfOk result (λ texts. texts_list texts.items ≡ flat_map function_of (parts_list parts.now)) }
{
    let mut texts = Vec::new(alloc);
    for part in parts {
        if let Part::Function(text) = *part {
            texts.push(text)?;
        }
    }
    Ok(texts)
}

/// The number of a block or tagbody.
fn extent(part: Part<'_>) -> Option<u32>
    ensures { option_to_list result ≡ extent_of (part_of part.entry) }
{
    match part {
        Part::Block(number, _) | Part::Tagbody(number) => Some(number),
        Part::Function(_) | Part::Tag(_, _) | Part::Local(_) => None,
    }
}

/// The numbers of the blocks and tagbodies.
pub fn extents_in(alloc: Global, parts: &[Part<'_>]) -> Result<Vec<u32>, AllocError>
    ensures { IfOk result (λ numbers. numbers.items ≡ flat_map extent_of (parts_list parts.now)) }
{
    let mut numbers = Vec::new(alloc);
    for part in parts {
        if let Some(number) = extent(*part) {
            numbers.push(number)?;
        }
    }
    Ok(numbers)
}

/// The blocks with their names.
pub fn blocks_in(alloc: Global, parts: &[Part<'_>]) -> Result<Vec<(u32, SymId)>, AllocError>
    ensures { IfOk result (λ blocks. blocks.items ≡ flat_map block_of (parts_list parts.now)) }
{
    let mut blocks = Vec::new(alloc);
    for part in parts {
        if let Part::Block(number, name) = *part {
            blocks.push((number, name))?;
        }
    }
    Ok(blocks)
}

/// The tags.
pub fn tags_in(alloc: Global, parts: &[Part<'_>]) -> Result<Vec<(u32, TagName)>, AllocError>
    ensures { IfOk result (λ tags. tags_list tags.items ≡ tag_texts_of (parts_list parts.now)) }
{
    let mut tags = Vec::new(alloc);
    for part in parts {
        if let Part::Tag(number, name) = *part {
            tags.push((number, name))?;
        }
    }
    Ok(tags)
}

/// The local functions, each with the number of what it does.
pub fn locals_in(alloc: Global, parts: &[Part<'_>]) -> Result<Vec<(u32, u32)>, AllocError>
    ensures { IfOk result (λ locals. locals.items ≡ flat_map local_number_of (parts_list parts.now)) }
{
    let mut locals = Vec::new(alloc);
    for part in parts {
        if let Part::Local(definition) = *part {
            locals.push((definition.number, definition.lambda.number))?;
        }
    }
    Ok(locals)
}
