//! A program that grows form by form.

ghost use Rattle.std.specs.Prelude.{◌≡◌, ◌++◌, ◌∷◌, [], IfErr, OnErr, OnOk, map};
ghost use Rattle.core_form.specs.Lawful.{quoted};
ghost use Rattle.core_form.specs.Reading.{core_of};
ghost use Rattle.closed_copies.specs.Copies.{closed_copies};
ghost use Rattle.form_expander.specs.Keeping.{Keeps};
ghost use Rattle.form_expander.specs.Reading.{scope_of, world_of};
ghost use Rattle.program_size.specs.Counting.{AreThere};
ghost use Rattle.file_expansion.specs.Laws.{Grows, IsThere, IsTopScope};
ghost use Rattle.macroexpand.specs.Going.{AddsTree, Comes, HadCounted, IsGoing, RefusesAll, RefusesLarge, form_pending};

use crate::shapes::{AtTop, at_top};
use crate::trees::Measured;
use core_form::Tops;
use expansion::ExpandKind;
use form_expander::{Expander, Fault};
use lisp_base::{Heap, Val};
use program_size::{PreludeFunction, Sizes};
use std::alloc::Global;

/// The trees of a program so far, beside the functions of its prelude, and how large it is.
#[derive(Drop)]
pub(crate) struct Growing {
    pub(crate) prelude: Vec<PreludeFunction>,
    pub(crate) sizes: Sizes,
    pub(crate) forms: Tops,
}

impl Growing {
    /// One more form.
    ///
    /// # Errors
    /// `ProgramTooLarge` where the program is too large with it; want of memory.
    fn add(&mut self, alloc: Global, tree: Measured, heap: &Heap) -> Result<(), Fault>
        requires counted { HadCounted self.old heap.now }
        requires there { AreThere heap.now (quoted (core_of tree.form.core)) }
        requires measured { tree.copies ≡ closed_copies (core_of tree.form.core) }
        ensures ok { OnOk result (AddsTree self.old self.new heap.now tree) }
        ensures refused { IfErr result (RefusesLarge self.old heap.now tree) }
    {
        let Measured { form, copies } = tree;
        let place = form.place;
        self.sizes.add(&form, copies, &self.prelude, heap)?;
        self.forms.push(form)?;
        if self.sizes.is_too_large() {
            return Err(Fault::Refused {
                kind: ExpandKind::ProgramTooLarge,
                place,
            });
        }
        Ok(())
    }

    /// The trees of a form at the top, behind those so far. Its parts are forms at the top, if it
    /// is a PROGN or a LOCALLY.
    ///
    /// # Errors
    /// The first refusal; want of memory.
    pub(crate) fn expand(
        &mut self,
        expander: &mut Expander,
        alloc: Global,
        has_policy: bool,
        chain: u32,
        form: Val,
    ) -> Result<(), Fault>
        requires going { IsGoing self.old (world_of expander.old.world) }
        requires scope { IsTopScope (world_of expander.old.world) (scope_of expander.old.scope) }
        requires there { IsThere (world_of expander.old.world) form }
        ensures comes { OnOk result (Comes self.old (world_of expander.old.world) (form_pending (scope_of expander.old.scope) has_policy chain form) self.new (world_of expander.new.world) []) }
        ensures refused { IfErr result (RefusesAll self.old (world_of expander.old.world) (form_pending (scope_of expander.old.scope) has_policy chain form)) }
        ensures going { OnOk result (IsGoing self.new (world_of expander.new.world)) }
        ensures grows { OnOk result (Grows (world_of expander.old.world) (world_of expander.new.world)) }
        ensures prelude { OnOk result (self.new.prelude ≡ self.old.prelude) }
        ensures scope { OnOk result (scope_of expander.new.scope ≡ scope_of expander.old.scope) }
        ensures keeps { Keeps expander.old.world expander.new.world }
    {
        let mark = expander.scope.mark();
        match at_top(expander, alloc, has_policy, chain, form)? {
            AtTop::Tree(tree) => self.add(alloc, tree, &expander.world.heap)?,
            AtTop::Parts(parts) => {
                let has_own = parts.has_policy;
                let left = parts.chain;
                for part in &parts.forms {
                    self.expand(expander, alloc, has_own, left, *part)?;
                }
            }
        }
        expander.scope.leave(mark);
        Ok(())
    }
}
