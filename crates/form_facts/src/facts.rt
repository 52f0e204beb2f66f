// What is told of a form.
ghost use Rattle.std.specs.Prelude.{◌≡◌, ℕ, IfOk};
ghost use Rattle.core_form.specs.Reading.{core_of, top_of};
ghost use Rattle.core_form.specs.Facts.{facts_of, functions_in, has_number};
ghost use Rattle.form_facts.specs.View.{Knows, list_at};
ghost use Rattle.form_facts.specs.Words.{kinds_of};

use crate::cells::{cells_in, changed_in};
use crate::functions::{closed_lists, locals_in};
use crate::lists::{joined_in, list_at};
use crate::numbers::Numbers;
use crate::parts::parts_in;
use crate::words::words_in;
use core_form::TopForm;
use lisp_base::SymTab;
use std::alloc::{AllocError, Global};
use std::marker::Model;

/// The facts of a top-level form: what has a cell, which variables are words, and what its
/// functions close over. A contract sees these as lists of numbers.
#[derive(Drop)]
pub struct FormFacts {
    cells: Numbers,
    words: Numbers,
    closed: Vec<Vec<u32>>,
}

impl Model for FormFacts {
    ghost use Rattle.form_facts.specs.View.{View, make_view};

    ghost Value = { View };

    ghost view = { λ facts. make_view facts.cells facts.words facts.closed.items };
}

/// The facts of a form in a program of these symbols.
///
/// # Errors
/// Want of memory alone.
pub fn form_facts(alloc: Global, form: &TopForm, symbols: &SymTab) -> Result<FormFacts, AllocError>
    ensures { IfOk result (λ f. (start : ℕ) → Knows f (facts_of (kinds_of symbols.now) start (top_of form.now)) (functions_in (core_of form.now.core))) }
{
    let parts = parts_in(alloc, &form.core)?;
    let locals = locals_in(alloc, &form.core)?;
    let closed = closed_lists(alloc, &parts, &locals)?;
    let all_closed = joined_in(alloc, &closed)?;
    let changed = changed_in(alloc, &parts, &locals.tags)?;
    let cells = cells_in(alloc, &all_closed, &changed)?;
    let words = words_in(alloc, &parts, &all_closed, symbols)?;
    Ok(FormFacts {
        cells,
        words,
        closed,
    })
}

impl FormFacts {
    /// Whether a variable, block or tagbody has a cell.
    pub fn is_cell(&self, number: u32) -> bool
        ensures { result ≡ has_number number self.now.cells }
    {
        self.cells.has(number)
    }

    /// Whether a variable is a word.
    pub fn is_word(&self, number: u32) -> bool
        ensures { result ≡ has_number number self.now.words }
    {
        self.words.has(number)
    }

    /// The closed variables of a function by its lambda's number, which counts the functions of
    /// the form from 0. None where there is no such function.
    pub fn closed_of(&self, lambda: u32) -> &[u32]
        ensures { result.now ≡ list_at self.now.closed lambda }
    {
        list_at(&self.closed, lambda as usize)
    }
}
