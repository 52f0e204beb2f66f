//! The tree of one form at the top.

ghost use Rattle.std.specs.Prelude.{◌≡◌, IfOk, OnOk};
ghost use Rattle.closed_copies.specs.Copies.{closed_copies as copies_in};
ghost use Rattle.core_form.specs.Reading.{core_of};
ghost use Rattle.form_expander.specs.Keeping.{Keeps};
ghost use Rattle.form_expander.specs.Outcomes.{Follows};
ghost use Rattle.form_expander.specs.Reading.{scope_of, world_of};
ghost use Rattle.macroexpand.specs.Going.{measured_from};
ghost use Rattle.file_expansion.specs.Tops.{top_tree as tree_at_top};

use closed_copies::closed_copies;
use core_form::TopForm;
use expansion::ExpandKind;
use form_expander::{Expander, Fault};
use lisp_base::Val;
use std::alloc::Global;

/// How many closed copies a top-level form may have.
const MOST_COPIES: u32 = 3000;

/// A top-level form with the number of its closed copies.
#[derive(Drop)]
pub(crate) struct Measured {
    pub(crate) form: TopForm,
    pub(crate) copies: u32,
}

/// The tree of a form in its own scope, to which so many forms without a node may lead. Its
/// variables, functions and nodes are counted anew.
///
/// # Errors
/// The form's first refusal, `TooManyClosed` after all others; want of memory.
pub(crate) fn top_tree(
    expander: &mut Expander,
    alloc: Global,
    chain: u32,
    form: Val,
) -> Result<Measured, Fault>
    ensures follows { Follows measured_from (tree_at_top chain (scope_of expander.old.scope) form (world_of expander.old.world)) result (world_of expander.new.world) }
    ensures copies { IfOk result (λ made. made.copies ≡ copies_in (core_of made.form.core)) }
    ensures scope { OnOk result (scope_of expander.new.scope ≡ scope_of expander.old.scope) }
    ensures keeps { Keeps expander.old.world expander.new.world }
{
    expander.world.next = 1;
    expander.world.functions = 0;
    expander.world.nodes = 0;
    let core = expander.tree_of(alloc, chain, form)?;
    let place = expander.scope.place;
    let nodes = expander.world.nodes;
    let form = TopForm { place, core, nodes };
    match closed_copies(alloc, &form, MOST_COPIES)? {
        Some(copies) => Ok(Measured { form, copies }),
        None => Err(Fault::Refused {
            kind: ExpandKind::TooManyClosed,
            place,
        }),
    }
}
