//! How far a file is read: what is begun, and the forms that are whole.

ghost use Rattle.std.specs.Prelude.{◌≡◌, ◌≤◌, ◌^◌, [], Err, IfErr, IfOk, IfSome, None, Ok, OnErr, OnOk, Some, length};
ghost use Rattle.lisp_base.specs.Tables.{Table};
ghost use Rattle.lisp_reader.specs.Building.{stock};
ghost use Rattle.lisp_reader.specs.Held.{AllShort, Grows, IsFull, KeepsAll, fault_of, level_of, levels_of};
ghost use Rattle.lisp_reader.specs.Machine.{closed, delivered, dotting, moved, step, with_value, world};
ghost use Rattle.lisp_reader.specs.Reading.{refusal_at, symbol_fault};
ghost use Rattle.lisp_reader.specs.Tokens.{placed};
ghost use Rattle.lisp_reader.specs.Spelled.{token_of};
ghost use Rattle.lisp_base.specs.declared.symbols.SymFault.TheVariants as sym_fault;

use crate::building::{atom_value, chain, prefix_symbol, vector};
use crate::fault::{ReadFault, ReadKind};
use crate::forms::{Forms, TopRead};
use crate::level::Level;
use crate::place::place_fault;
use crate::token::Token;
use lisp_base::{Heap, NIL, SymFault, SymTab, Val};
use std::alloc::{AllocError, Global};
use std::collections::LinkedList;

// A level with one more value in it.
fn with_value(level: Level, value: Val) -> Result<Level, AllocError>
    ensures { IfOk result (λ after. level_of after ≡ with_value (level_of level) value) }
{
    match level {
        Level::List { at, mut items } => {
            items.push(value)?;
            Ok(Level::List { at, items })
        }
        Level::Dot { at, items } => Ok(Level::Tail {
            at,
            items,
            tail: value,
        }),
        Level::Vector { at, mut items } => {
            items.push(value)?;
            Ok(Level::Vector { at, items })
        }
        other => Ok(other),
    }
}

// A value that is whole goes where it belongs.
#[tactic(auto, using(crate::proofs::Chains::grows_on, crate::proofs::Chains::grows_same), unfolding(crate::specs::Machine::delivered))]
fn deliver(
    levels: &mut LinkedList<Level>,
    forms: &mut Forms,
    heap: &mut Heap,
    at: u32,
    value: Val,
) -> Result<(), AllocError>
    ensures ok { OnOk result ((t : Table) → delivered (levels_of levels.old) forms.old.items at (value, stock t heap.old) ≡ world (levels_of levels.new) forms.new.items (stock t heap.new)) }
    ensures grown { Grows heap.old heap.new }
{
    let mut at = at;
    let mut value = value;
    while let Some(level) = levels.pop_front() {
        match level {
            Level::Prefix { at: start, prefix } => {
                value = chain(heap, start, &[prefix_symbol(prefix), value], Val::Sym(NIL))?;
                at = start;
            }
            other => {
                levels.push_front(with_value(other, value)?)?;
                return Ok(());
            }
        }
    }
    forms.push(TopRead {
        form: value,
        offset: at,
    })?;
    Ok(())
}

// Ends the innermost list or vector, where one may end.
#[tactic(auto, using(crate::proofs::Chains::grows_on, crate::proofs::Chains::grows_same, crate::proofs::Chains::grows_more), unfolding(crate::specs::Machine::closed))]
fn close(
    levels: &mut LinkedList<Level>,
    forms: &mut Forms,
    heap: &mut Heap,
) -> Result<(), AllocError>
    requires { AllShort (2 ^ 32) (levels_of levels.old) }
    ensures ok { OnOk result ((t : Table) → closed (levels_of levels.old) forms.old.items (stock t heap.old) ≡ world (levels_of levels.new) forms.new.items (stock t heap.new)) }
    ensures grown { Grows heap.old heap.new }
{
    match levels.pop_front() {
        None => Ok(()),
        Some(Level::List { at, items }) => {
            let value = chain(heap, at, &items, Val::Sym(NIL))?;
            deliver(levels, forms, heap, at, value)
        }
        Some(Level::Tail { at, items, tail }) => {
            let value = chain(heap, at, &items, tail)?;
            deliver(levels, forms, heap, at, value)
        }
        Some(Level::Vector { at, items }) => {
            let value = vector(heap, items)?;
            deliver(levels, forms, heap, at, value)
        }
        Some(other) => {
            levels.push_front(other)?;
            Ok(())
        }
    }
}

// Takes the dot of the innermost list, where it may come.
#[tactic(auto, unfolding(crate::specs::Machine::dotting))]
fn dot(levels: &mut LinkedList<Level>) -> Result<(), AllocError>
    ensures { OnOk result (levels_of levels.new ≡ dotting (levels_of levels.old)) }
{
    match levels.pop_front() {
        None => Ok(()),
        Some(Level::List { at, items }) => {
            levels.push_front(Level::Dot { at, items })?;
            Ok(())
        }
        Some(other) => {
            levels.push_front(other)?;
            Ok(())
        }
    }
}

// How far a file is read.
#[derive(Drop)]
pub(crate) struct Progress {
    // What is begun, the innermost first.
    pub(crate) levels: LinkedList<Level>,
    // The top-level forms that are whole.
    pub(crate) forms: Forms,
}

fn refused(at: u32, end: u32, kind: ReadKind) -> ReadFault
    ensures { fault_of result ≡ Some (refusal_at at end kind) }
{
    let offset = match kind {
        ReadKind::Eof => end,
        _ => at,
    };
    ReadFault::Refused { kind, offset }
}

impl Progress {
    ghost use Rattle.lisp_reader.specs.Seen.{world_of};

    // Begins a list, vector or prefix, or a value, or ends one: a token that may come.
    #[tactic(auto, using(crate::proofs::Chains::table_same, crate::proofs::Chains::all_same, crate::proofs::Chains::grows_on), unfolding(crate::specs::Machine::moved, crate::specs::Reading::symbol_fault))]
    fn take(
        &mut self,
        symbols: &mut SymTab,
        heap: &mut Heap,
        at: u32,
        token: Token<'_>,
    ) -> Result<(), SymFault>
        requires { AllShort (2 ^ 32) (levels_of self.old.levels) }
        ensures ok { OnOk result (moved (world_of self.old symbols.old heap.old) at (token_of token.entry) ≡ world_of self.new symbols.new heap.new) }
        ensures full { result ≡ Err sym_fault.TooMany → IsFull symbols.old (token_of token.entry) }
        ensures room { OnOk result (symbol_fault symbols.old (token_of token.entry) ≡ None) }
        ensures kept { KeepsAll symbols.old heap.old symbols.new heap.new }
    {
        let alloc = *self.forms.allocator();
        match token {
            Token::Open => {
                let items = Vec::new(alloc);
                self.levels.push_front(Level::List { at, items })?;
            }
            Token::Vector => {
                let items = Vec::new(alloc);
                self.levels.push_front(Level::Vector { at, items })?;
            }
            Token::Close => close(&mut self.levels, &mut self.forms, heap)?,
            Token::Dot => dot(&mut self.levels)?,
            Token::Prefix(prefix) => self.levels.push_front(Level::Prefix { at, prefix })?,
            Token::Atom(atom) => {
                let value = atom_value(alloc, symbols, heap, atom)?;
                deliver(&mut self.levels, &mut self.forms, heap, at, value)?;
            }
            Token::Bad(_) => {}
        }
        Ok(())
    }

    // Nothing is read yet.
    pub(crate) fn new(alloc: Global) -> Self
        ensures levels { levels_of result.levels ≡ [] }
        ensures forms { result.forms.items ≡ [] }
    {
        Progress {
            levels: LinkedList::new(alloc),
            forms: Vec::new(alloc),
        }
    }

    // Reads a token, or refuses it.
    #[tactic(auto, using(crate::proofs::Chains::table_same, crate::proofs::Chains::all_same), unfolding(crate::specs::Machine::step))]
    pub(crate) fn step(
        &mut self,
        symbols: &mut SymTab,
        heap: &mut Heap,
        at: u32,
        end: u32,
        token: Token<'_>,
    ) -> Result<(), ReadFault>
        requires { AllShort (2 ^ 32) (levels_of self.old.levels) }
        ensures ok { OnOk result (step (world_of self.old symbols.old heap.old) end (placed at (token_of token.entry)) ≡ Ok (world_of self.new symbols.new heap.new)) }
        ensures refused { IfErr result (λ fault. IfSome (fault_of fault) (λ r. step (world_of self.old symbols.old heap.old) end (placed at (token_of token.entry)) ≡ Err r)) }
        ensures kept { KeepsAll symbols.old heap.old symbols.new heap.new }
    {
        if let Some(kind) = place_fault(&self.levels, token) {
            return Err(refused(at, end, kind));
        }
        match self.take(symbols, heap, at, token) {
            Ok(()) => Ok(()),
            Err(SymFault::TooMany) => Err(refused(at, end, ReadKind::TooManySymbols)),
            Err(SymFault::Memory) => Err(ReadFault::Memory),
        }
    }
}
