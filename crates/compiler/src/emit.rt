// The image of a program's top-level forms.
ghost use Rattle.std.specs.Prelude.{◌≡◌, ◌^◌, ◌<◌, ◌∷◌, [], length, IfOk, OnOk};
ghost use Rattle.core_form.specs.Reading.{tops_of};
ghost use Rattle.debug_info.specs.Tables.{IsTables};
ghost use Rattle.debug_info.specs.Texts.{bytes_of};
ghost use Rattle.image.specs.Content.{IsImage};
ghost use Rattle.image.specs.View.{view};
ghost use Rattle.compiler.specs.Parts.{character_text, image_of_forms};
ghost use Rattle.compiler.specs.Compiled.{AreServed};
ghost use Rattle.compiler.specs.Emitted.{tables_of_code, image_of_code};

use crate::bytes::code_bytes;
use crate::code::program_code;
use crate::sites::{CODE_START, site_rows};
use crate::slot::Slot;
use crate::statics::statics_bytes;
use core_form::TopForm;
use debug_info::Debug;
use image::Image;
use std::alloc::{AllocError, Global};

/// The one text of the debug tables: the name of the one type that a form may expect.
fn texts(alloc: Global) -> Result<Vec<String>, AllocError>
    ensures { IfOk result (λ v. bytes_of v.items ≡ character_text ∷ []) }
{
    let mut texts = Vec::new(alloc);
    texts.push(String::from_str(alloc, "CHARACTER")?)?;
    Ok(texts)
}

/// The debug tables of a code.
fn code_tables(alloc: Global, code: &[Slot]) -> Result<Debug, AllocError>
    requires { length code.now < 2 ^ 22 }
    ensures tables { IfOk result (λ d. d ≡ tables_of_code code.now) }
    ensures rules { OnOk result (IsTables (tables_of_code code.now)) }
{
    let texts = texts(alloc)?;
    let sites = site_rows(alloc, code)?;
    Ok(Debug::new(texts, sites, Vec::new(alloc), Vec::new(alloc)))
}

/// The image of a code that begins with its entry.
fn code_image(alloc: Global, code: &[Slot]) -> Result<Image, AllocError>
    requires some { 0 < length code.now }
    requires near { length code.now < 2 ^ 22 }
    ensures content { IfOk result (λ i. view i ≡ image_of_code code.now) }
    ensures rules { IfOk result (λ i. IsImage (view i)) }
{
    let debug = code_tables(alloc, code)?;
    let statics = statics_bytes(alloc)?;
    let code = code_bytes(alloc, code)?;
    Ok(Image {
        version: 1,
        code,
        statics,
        debug,
        entry: CODE_START,
    })
}

/// The image of the program of these top-level forms.
///
/// # Errors
///
/// Only for want of memory.
pub fn program_image(alloc: Global, forms: &[TopForm]) -> Result<Image, AllocError>
    requires { AreServed (tops_of forms.now) }
    ensures content { IfOk result (λ i. view i ≡ image_of_forms (tops_of forms.now)) }
    ensures rules { IfOk result (λ i. IsImage (view i)) }
{
    let code = program_code(alloc, forms)?;
    code_image(alloc, &code)
}
