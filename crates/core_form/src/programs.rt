// Whole programs.
ghost use Rattle.std.specs.Prelude.{◌≡◌};
ghost use Rattle.core_form.specs.Lawful.{parts_of, meant, IsLawful};

use crate::tree::TopForm;
use lisp_base::{Heap, SymTab};
use std::marker::Model;

/// A list of top-level forms.
pub type Tops = Vec<TopForm>;

/// A program: the functions of the prelude that it uses, its top-level forms, the objects that
/// its constants reach, and its symbols.
///
/// Its trees are checked: each number used is bound round it, binders are numbered from 1 in one
/// count, and declared types are tested. Their symbols are in its table, which begins with the base
/// names, their types are lawful for it, and their data are in its heap. Symbols are given functions
/// alone. Each form of the prelude defines a function, none of them twice.
#[derive(Drop)]
pub struct Program {
    prelude: Tops,
    forms: Tops,
    heap: Heap,
    symbols: SymTab,
}

impl Model for Program {
    ghost use Rattle.core_form.specs.contracts.tree.Core as core;
    ghost use Rattle.core_form.specs.Lawful.{Parts, parts_of, meant, IsLawful};
    ghost use Rattle.std.specs.Coded.{codes};

    ghost Value = { Parts };

    ghost view = { λ p. parts_of p.prelude.items p.forms.items p.heap p.symbols.symbols };

    ghost invariant = { λ p. IsLawful (meant (parts_of p.prelude.items p.forms.items p.heap p.symbols.symbols)) };

    ghost coded = { Prim.hlevel (codes, core.the_row.coded) };
}

impl Program {
    /// The program of these parts.
    pub fn new(prelude: Tops, forms: Tops, heap: Heap, symbols: SymTab) -> Self
        requires { IsLawful (meant (parts_of prelude.items forms.items heap symbols.symbols)) }
        ensures { result ≡ parts_of prelude.items forms.items heap symbols.symbols }
    {
        Program {
            prelude,
            forms,
            heap,
            symbols,
        }
    }

    /// The functions of the prelude that the program uses.
    pub fn prelude(&self) -> &[TopForm]
        ensures forms { result.now ≡ self.now.prelude }
        ensures lawful { IsLawful (meant self.now) }
    {
        self.prelude.as_slice()
    }

    /// The top-level forms.
    pub fn forms(&self) -> &[TopForm]
        ensures forms { result.now ≡ self.now.forms }
        ensures lawful { IsLawful (meant self.now) }
    {
        self.forms.as_slice()
    }

    /// The objects that the constants reach.
    pub fn heap(&self) -> &Heap
        ensures { result.now ≡ self.now.heap }
    {
        &self.heap
    }

    /// The symbols.
    pub fn symbols(&self) -> &SymTab
        ensures { result.now.symbols ≡ self.now.symbols }
    {
        &self.symbols
    }
}
