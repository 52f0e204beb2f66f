// Printing a value.
ghost use Rattle.lisp_base.specs.Shown.{tree_of};
ghost use Rattle.lisp_print.specs.Printing.{depth_of, tree_text, word_text};
ghost use Rattle.lisp_print.specs.Progress.{cost, unfinished};
ghost use Rattle.std.specs.Prelude.{◌≡◌, ◌≤◌, ℕ, IfOk};
ghost use Rattle.std.specs.String.{string_bytes};

use crate::page::Page;
use lisp_base::View;
use std::alloc::{AllocError, Global};

/// How much of a value is printed.
#[derive(Clone, Copy, PartialEq, Eq, Debug)]
pub struct Limits {
    /// A list or vector inside this many others prints as `#`.
    pub level: u32,
    /// Of a list or vector this many elements are printed, and ` ...` stands for those behind.
    pub length: u32,
    /// This many objects are printed, and each further one as `...`.
    pub total: u32,
}

/// The text of a value as a view shows it.
pub fn print<V: View>(
    alloc: Global,
    view: &V,
    w: V::Word,
    limits: Limits,
) -> Result<String, AllocError>
    ensures text { IfOk result (λ text. string_bytes text ≡ word_text limits (V.shown view.now) w) }
    ensures any_depth { IfOk result (λ text. (depth : ℕ) → depth_of limits ≤ depth → string_bytes text ≡ tree_text limits (tree_of depth (V.shown view.now) w)) }
{
    let mut page = Page::new(alloc, limits);
    page.object(view, w, limits)?;
    while let Some(part) = page.parts.pop_front() {
        page.go_on(view, part, limits)?;
    }
    Ok(page.text)
}
