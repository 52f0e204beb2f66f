//! The symbol table.

ghost use Rattle.std.specs.Prelude.{◌≡◌, ◌≢◌, ◌+◌, ◌<◌, ◌++◌, ◌∷◌, [], false, map, Bool, length, codes, decimal, string_bytes, IfOk, OnErr, None, Some, slice_get, true, ◌≤◌};
ghost use Rattle.std.specs.Option.{option_map};
ghost use Rattle.std.specs.List.{list_any};
ghost use Rattle.lisp_base.specs.Kept.{same_entry};
ghost use Rattle.lisp_base.specs.Tables.{first_table, fresh_name, interned, is_interned, made_fresh, make_symbol, most_symbols, restarted};

use crate::base::base_names;
use crate::values::{SymId, SymKind};
use indexmap::IndexSet;
use std::alloc::{AllocError, AllocFailed, Global};
use std::marker::Model;

/// Why a symbol cannot be had.
#[derive(Clone, Copy, PartialEq, Eq, Debug)]
pub enum SymFault {
    /// The table has 65,536 symbols, and this one is not among them.
    TooMany,
    /// Want of memory.
    Memory,
}

impl From<AllocError> for SymFault {
    ghost use Rattle.lisp_base.specs.declared.symbols.SymFault.TheVariants.{Memory};

    ghost from_gives = { λ _ fault. fault ≡ Memory };

    fn from(_error: AllocError) -> Self {
        SymFault::Memory
    }
}

impl<T: Drop> From<AllocFailed<T>> for SymFault {
    ghost use Rattle.lisp_base.specs.declared.symbols.SymFault.TheVariants.{Memory};

    ghost from_gives = { λ _ fault. fault ≡ Memory };

    fn from(_error: AllocFailed<T>) -> Self {
        SymFault::Memory
    }
}

// How a symbol is kept. Uninterned ones may share a name, so each has a number of its own.
#[derive(PartialEq, Eq, Hash, Drop)]
enum Entry {
    Plain(String),
    Keyword(String),
    Fresh { name: String, number: usize },
}

impl Entry {
    ghost use Rattle.lisp_base.specs.Kept.{symbol_of};

    // The entry of an interned symbol.
    fn interned(alloc: Global, name: &str, kind: SymKind) -> Result<Self, AllocError>
        requires { is_interned kind ≡ true }
        ensures { IfOk result (λ entry. symbol_of entry ≡ make_symbol name.now kind) }
    {
        let name = String::from_str(alloc, name)?;
        match kind {
            SymKind::Plain => Ok(Entry::Plain(name)),
            SymKind::Keyword => Ok(Entry::Keyword(name)),
            SymKind::Fresh => unreachable!(),
        }
    }

    fn name(&self) -> &str
        ensures { result.now ≡ (symbol_of self.now).name }
    {
        match self {
            Entry::Plain(name) => name.as_str(),
            Entry::Keyword(name) => name.as_str(),
            Entry::Fresh { name, .. } => name.as_str(),
        }
    }

    fn kind(&self) -> SymKind
        ensures { result ≡ (symbol_of self.now).kind }
    {
        match self {
            Entry::Plain(_) => SymKind::Plain,
            Entry::Keyword(_) => SymKind::Keyword,
            Entry::Fresh { .. } => SymKind::Fresh,
        }
    }
}

// How many symbols a table can have.
const MOST_SYMBOLS: usize = 65_536;

/// The symbols of a program, numbered from 0 in order of first use. The base names come first, so
/// NIL is 0 and T is 1. A contract
/// sees a table as the list of its symbols, with the number of uninterned ones that came since it
/// was made or last restarted.
#[derive(Drop)]
pub struct SymTab {
    entries: IndexSet<Entry>,
    fresh: u32,
}

impl Model for SymTab {
    ghost use Rattle.lisp_base.specs.Tables.{Table, make_table};
    ghost use Rattle.lisp_base.specs.Kept.{symbols_of, IsKept};

    ghost Value = { Table };

    ghost view = { λ t. make_table (symbols_of t.entries.keys) t.fresh };

    ghost invariant = { λ t. IsKept t.entries.keys t.fresh };
}

impl SymTab {
    ghost use Rattle.lisp_base.specs.Tables.{BeginsWithNames};

    /// The table to begin with: the base names in their order, as plain symbols.
    ///
    /// # Errors
    /// Want of memory alone.
    pub fn new(alloc: Global) -> Result<Self, AllocError>
        ensures { IfOk result (λ table. table ≡ first_table) }
    {
        let mut entries = IndexSet::new(alloc);
        for name in base_names() {
            entries.insert(Entry::interned(alloc, name, SymKind::Plain)?)?;
        }
        Ok(SymTab { entries, fresh: 0 })
    }

    /// The symbol of this name (its text) that is plain or a keyword, added last where it is new.
    ///
    /// # Errors
    /// `TooMany` exactly where it is new and 65,536 symbols are there; want of memory. The table is
    /// then as before.
    pub fn intern(&mut self, name: &str, kind: SymKind) -> Result<SymId, SymFault>
        requires { is_interned kind ≡ true }
        ensures ok { IfOk result (λ id. interned name.now kind self.old ≡ Some (id, self.new)) }
        ensures too_many { result ≡ Err SymFault.TooMany → interned name.now kind self.old ≡ None }
        ensures err { OnErr result (self.new ≡ self.old) }
    {
        let entry = Entry::interned(*self.entries.allocator(), name, kind)?;
        if let Some(index) = self.entries.get_index_of(&entry) {
            return Ok(SymId(index as u32));
        }
        let id = add(&mut self.entries, entry)?;
        Ok(id)
    }

    /// A new uninterned symbol, named G and the number of those that came since the table was made
    /// or last restarted, itself included.
    ///
    /// # Errors
    /// `TooMany` exactly where 65,536 symbols are there; want of memory. The table is then as
    /// before.
    pub fn fresh(&mut self) -> Result<SymId, SymFault>
        ensures ok { IfOk result (λ id. made_fresh self.old ≡ Some (id, self.new)) }
        ensures too_many { result ≡ Err SymFault.TooMany → made_fresh self.old ≡ None }
        ensures err { OnErr result (self.new ≡ self.old) }
    {
        let alloc = *self.entries.allocator();
        let fresh = self.fresh + 1;
        let name = format!(in alloc; "G{fresh}")?;
        let number = self.entries.len();
        let id = add(&mut self.entries, Entry::Fresh { name, number })?;
        self.fresh = fresh;
        Ok(id)
    }

    /// Makes the next uninterned symbol G1 again, and changes nothing else.
    pub fn restart(&mut self)
        ensures { self.new ≡ restarted self.old }
    {
        self.fresh = 0;
    }

    /// The name of a symbol, without a keyword's colon; None exactly where the number is none of
    /// the table's.
    pub fn name(&self, id: SymId) -> Option<&str>
        ensures { option_map (λ name. name.now) result ≡ option_map (λ s. s.name) (slice_get self.now.symbols id.0) }
    {
        Some(self.entries.get_index(id.0 as usize)?.name())
    }

    /// What a symbol is; None exactly where the number is none of the table's.
    pub fn kind(&self, id: SymId) -> Option<SymKind>
        ensures { result ≡ option_map (λ s. s.kind) (slice_get self.now.symbols id.0) }
    {
        Some(self.entries.get_index(id.0 as usize)?.kind())
    }

    /// A law of every table: its first symbols are the base names in their order, as plain symbols.
    /// So symbol n below their number is the nth base name, NIL is 0 and T is 1. A call does
    /// nothing.
    pub fn begins_with_names(&self)
        ensures { BeginsWithNames self.now.symbols }
    {
        let _ = &self.entries;
    }
}

// Adds an entry that is new, where there is room.
#[tactic(auto, unfolding(crate::specs::Tables::most_symbols))]
fn add(entries: &mut IndexSet<Entry>, entry: Entry) -> Result<SymId, SymFault>
    requires { list_any (same_entry entry) entries.old.keys ≡ false }
    ensures ok { IfOk result (λ id. (id.0 ≡ length entries.old.keys) × (length entries.old.keys < most_symbols) × (entries.new.keys ≡ entries.old.keys ++ entry ∷ [])) }
    ensures too_many { result ≡ Err SymFault.TooMany → most_symbols ≤ length entries.old.keys }
    ensures err { OnErr result (entries.new.keys ≡ entries.old.keys) }
{
    let number = entries.len();
    if number >= MOST_SYMBOLS {
        return Err(SymFault::TooMany);
    }
    entries.insert(entry)?;
    Ok(SymId(number as u32))
}
