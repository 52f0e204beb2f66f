// The functions of a form, and what its numbers name.
ghost use Rattle.std.specs.Prelude.{◌≡◌, IfOk, map};
ghost use Rattle.core_form.specs.Reading.{core_of};
ghost use Rattle.core_form.specs.Facts.{functions_in as functions_of, has_number, lookup};
ghost use Rattle.form_names.specs.Names.{NamesOf};
ghost use Rattle.form_names.specs.Read.{text_of};

use crate::lists::{blocks_in, extents_in, locals_in, tags_in, texts_in};
use crate::numbered::{first_values, set_of};
use crate::parts::{TagName, Text, walk};
use core_form::Core;
use lisp_base::SymId;
use std::alloc::{AllocError, Global};
use std::collections::{HashMap, HashSet};
use std::marker::Model;

/// What stands under the numbers of a form: its blocks and tagbodies, tags and local functions. A
/// contract sees it as lists.
#[derive(Drop)]
pub struct FormNames {
    extents: HashSet<u32>,
    blocks: HashMap<u32, SymId>,
    tags: HashMap<u32, TagName>,
    locals: HashMap<u32, u32>,
}

impl Model for FormNames {
    ghost use Rattle.form_names.specs.Names.{Names, make_names};

    ghost Value = { Names };

    ghost view = { λ f. make_names f.extents.keys f.blocks.entries f.tags.entries f.locals.entries };
}

/// The functions of a form, each before those inside it, in the order of the text.
///
/// # Errors
/// Want of memory alone.
pub fn functions_in<'a>(alloc: Global, form: &'a Core) -> Result<Vec<Text<'a>>, AllocError>
    ensures { IfOk result (λ texts. map text_of texts.items ≡ functions_of (core_of form.now)) }
{
    let mut parts = Vec::new(alloc);
    walk(&mut parts, form)?;
    texts_in(alloc, &parts)
}

/// What stands under the numbers of a form.
///
/// # Errors
/// Want of memory alone.
pub fn form_names(alloc: Global, form: &Core) -> Result<FormNames, AllocError>
    ensures { IfOk result (λ f. NamesOf f (core_of form.now)) }
{
    let mut parts = Vec::new(alloc);
    walk(&mut parts, form)?;
    let extents = set_of(alloc, &extents_in(alloc, &parts)?)?;
    let blocks = first_values(alloc, &blocks_in(alloc, &parts)?)?;
    let tags = first_values(alloc, &tags_in(alloc, &parts)?)?;
    let locals = first_values(alloc, &locals_in(alloc, &parts)?)?;
    Ok(FormNames {
        extents,
        blocks,
        tags,
        locals,
    })
}

impl FormNames {
    /// Whether this is the number of a block or tagbody.
    #[tactic(auto, using(crate::proofs::Found::has_same))]
    pub fn is_extent(&self, number: u32) -> bool
        ensures { result ≡ has_number number self.now.extents }
    {
        self.extents.contains(&number)
    }

    /// The name of a block.
    #[tactic(auto, using(crate::proofs::Found::found_same))]
    pub fn block_name(&self, number: u32) -> Option<SymId>
        ensures { result ≡ lookup number self.now.blocks }
    {
        self.blocks.get(&number).copied()
    }

    /// A tag.
    #[tactic(auto, using(crate::proofs::Found::found_same))]
    pub fn tag(&self, number: u32) -> Option<TagName>
        ensures { result ≡ lookup number self.now.tags }
    {
        self.tags.get(&number).copied()
    }

    /// The number of what a local function does, by its own.
    #[tactic(auto, using(crate::proofs::Found::found_same))]
    pub fn local_function(&self, number: u32) -> Option<u32>
        ensures { result ≡ lookup number self.now.locals }
    {
        self.locals.get(&number).copied()
    }
}
