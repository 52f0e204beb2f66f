//! How large a program is.

ghost use Rattle.std.specs.Prelude.{◌≡◌, ◌↔◌, ◌<◌, ◌≤◌, ◌+◌, ◌++◌, ◌∷◌, [], List, Contains, IsTrue, IfOk, OnOk, true, false};
ghost use Rattle.lisp_base.specs.Tables.{Object};
ghost use Rattle.lisp_base.specs.declared.values.Val.TheVariants.{Sym};
ghost use Rattle.program_size.specs.Mentions.{Sized, Function, Mentions, sized, functions_of, mentioned};
ghost use Rattle.program_size.specs.Sizes.{IsTooLarge, is_past_limits};

use crate::marks::{Marks, plus};
use crate::mentioned::mentioned;
use crate::prelude_functions::PreludeFunction;
use core_form::TopForm;
use lisp_base::{Heap, SymId};
use std::alloc::{AllocError, Global};
use std::collections::HashSet;

/// The size of a program, form by form, with the functions of the prelude that it holds.
///
/// The data of all forms are in one heap that only grows, and the functions of the prelude are the
/// same for each form.
#[derive(Drop)]
pub struct Sizes {
    alloc: Global,
    marks: Marks,
    /// The functions of the prelude that were added, by their numbers.
    held: HashSet<usize>,
    nodes: u64,
    copies: u64,
}

/// Whether there are more nodes, closed copies or words of constants than a program may have.
#[tactic(auto, unfolding(crate::specs::Sizes::most_nodes, crate::specs::Sizes::most_copies, crate::specs::Sizes::most_words))]
fn is_past_limits(nodes: u64, copies: u64, words: u64) -> bool
    ensures { result ≡ is_past_limits record { nodes = nodes; copies = copies; words = words } }
{
    nodes > 400_000 || copies > 400_000 || words > 4_194_304
}

impl Sizes {
    ghost use Rattle.program_size.specs.Counting.{Counts, PreludeIsThere, Includes, Keeps, IsComplete, Adds, unheld, news_count};

    /// The size of a program without forms. All that the functions of its prelude quote is to be in
    /// the heap.
    pub fn new(alloc: Global) -> Self
        ensures { (prelude : List Function) (heap : List Object) → PreludeIsThere heap prelude → Counts result prelude heap [] }
    {
        Sizes {
            alloc,
            marks: Marks::new(alloc),
            held: HashSet::new(alloc),
            nodes: 0,
            copies: 0,
        }
    }

    /// Adds a form, and no function of the prelude.
    fn include(&mut self, form: &TopForm, copies: u32, heap: &Heap) -> Result<(), AllocError>
        ensures { OnOk result (Includes heap.now (sized form.now copies) self.old self.new) }
    {
        let found = mentioned(self.alloc, &form.core)?;
        self.marks.see_all(found, heap)?;
        self.nodes = plus(self.nodes, u64::from(form.nodes));
        self.copies = plus(self.copies, u64::from(copies));
        Ok(())
    }

    /// Adds the functions of the prelude whose names were seen. Where one of them mentions a further
    /// symbol this is news.
    fn look_through(&mut self, prelude: &[PreludeFunction], heap: &Heap) -> Result<(), AllocError>
        ensures keeps { OnOk result (Keeps heap.now (functions_of prelude.now) self.old self.new) }
        ensures complete { OnOk result (IsComplete (functions_of prelude.now) self.new) }
        ensures progress { OnOk result (unheld self.new (functions_of prelude.now) + news_count self.new ≤ unheld self.old (functions_of prelude.now)) }
    {
        self.marks.news = false;
        for (i, function) in prelude.iter().enumerate() {
            if self.marks.has_symbol(function.name) && self.held.insert(i)? {
                self.include(&function.form, function.copies, heap)?;
            }
        }
        Ok(())
    }

    /// Adds the functions of the prelude that are mentioned, by forms or by one another.
    fn hold_mentioned(&mut self, prelude: &[PreludeFunction], heap: &Heap) -> Result<(), AllocError>
        ensures keeps { OnOk result (Keeps heap.now (functions_of prelude.now) self.old self.new) }
        ensures complete { OnOk result (IsComplete (functions_of prelude.now) self.old → IsComplete (functions_of prelude.now) self.new) }
        ensures quiet { OnOk result (self.new.marks.news ≡ false) }
    {
        while self.marks.news {
            self.look_through(prelude, heap)?;
        }
        Ok(())
    }

    /// Adds a form with the number of its closed copies, and the functions of the prelude that it
    /// brings in. All that the form quotes is to be in the heap, and what was in the heap at the last
    /// form is to be there still.
    ///
    /// # Errors
    ///
    /// Want of memory alone. Nothing is known of the sizes from then on.
    pub fn add(
        &mut self,
        form: &TopForm,
        copies: u32,
        prelude: &[PreludeFunction],
        heap: &Heap,
    ) -> Result<(), AllocError>
        ensures { OnOk result (Adds heap.now (functions_of prelude.now) (sized form.now copies) self.old self.new) }
    {
        self.include(form, copies, heap)?;
        self.hold_mentioned(prelude, heap)
    }

    /// Whether a program of the forms that were added is too large: more than 400,000 nodes, more
    /// than 400,000 closed copies, or more than 4,194,304 words of constants.
    pub fn is_too_large(&self) -> bool
        ensures { (prelude : List Function) (heap : List Object) (forms : List Sized) → Counts self.now prelude heap forms → IsTrue result ↔ IsTooLarge heap prelude forms }
    {
        let integers = 2 * self.marks.integers.len() as u64;
        is_past_limits(self.nodes, self.copies, plus(self.marks.words, integers))
    }

    /// Whether a program of the forms that were added mentions a symbol, and so holds the function
    /// of the prelude of this name.
    pub fn mentions(&self, name: SymId) -> bool
        ensures { (prelude : List Function) (heap : List Object) (forms : List Sized) → Counts self.now prelude heap forms → IsTrue result ↔ Mentions heap prelude forms (Sym name) }
    {
        self.marks.has_symbol(name)
    }
}
