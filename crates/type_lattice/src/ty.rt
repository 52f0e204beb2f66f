//! Sets of values.

ghost use Rattle.std.specs.Prelude.{IsTrue};
ghost use Rattle.std.specs.List.{list_all};
ghost use Rattle.type_lattice.specs.Values.{is_integer_border, is_character_border, is_symbol_border};

use crate::kinds::Kinds;
use crate::ranges::Ranges;
use crate::walk::Combination;
use std::alloc::{AllocError, Global};

/// A set of values of the language, such as a type holds: integers and characters in ranges, finitely
/// many symbols or all but finitely many, keywords the same, and objects by their kinds alone.
///
/// A set changes only at values, and at none that is the first of its kind, so that two sets are
/// the same where they have the same borders.
#[derive(Drop, Debug)]
pub struct Ty {
    pub(crate) integers: Ranges,
    pub(crate) characters: Ranges,
    // Plain and uninterned symbols, by their numbers.
    pub(crate) symbols: Ranges,
    pub(crate) keywords: Ranges,
    pub(crate) kinds: Kinds,
    ghost integer_borders: { IsTrue (list_all is_integer_border integers.borders.items) },
    ghost character_borders: { IsTrue (list_all is_character_border characters.borders.items) },
    ghost symbol_borders: { IsTrue (list_all is_symbol_border symbols.borders.items) },
    ghost keyword_borders: { IsTrue (list_all is_symbol_border keywords.borders.items) },
}

impl Ty {
    ghost use Rattle.std.specs.Prelude.{◌≡◌, ◌⊎◌, ◌||◌, ◌&&◌, not, true, IfOk};
    ghost use Rattle.std.specs.Bool.{OnTrue, OnFalse};
    ghost use Rattle.type_lattice.specs.Values.{Value};
    ghost use Rattle.type_lattice.specs.Walks.{combined};
    ghost use Rattle.type_lattice.specs.Members.{is_in, HasMore};

    /// What is in this set or in another.
    ///
    /// # Errors
    /// Want of memory alone.
    pub fn union(&self, alloc: Global, other: &Ty) -> Result<Ty, AllocError>
        ensures { IfOk result (λ t. (v : Value) → is_in t v ≡ (is_in self.now v || is_in other.now v)) }
    {
        self.combine(alloc, other, Combination::Union)
    }

    /// What is in this set and in another.
    ///
    /// # Errors
    /// Want of memory alone.
    pub fn meet(&self, alloc: Global, other: &Ty) -> Result<Ty, AllocError>
        ensures { IfOk result (λ t. (v : Value) → is_in t v ≡ (is_in self.now v && is_in other.now v)) }
    {
        self.combine(alloc, other, Combination::Meet)
    }

    /// What is not in this set.
    ///
    /// # Errors
    /// Want of memory alone.
    pub fn not(&self, alloc: Global) -> Result<Ty, AllocError>
        ensures { IfOk result (λ t. (v : Value) → is_in t v ≡ not (is_in self.now v)) }
    {
        let integers = self.integers.opposite(alloc)?;
        let characters = self.characters.opposite(alloc)?;
        let symbols = self.symbols.opposite(alloc)?;
        let keywords = self.keywords.opposite(alloc)?;
        Ok(Ty {
            integers,
            characters,
            symbols,
            keywords,
            kinds: self.kinds.opposite(),
        })
    }

    /// What is in this set or in another, or in both.
    pub(crate) fn combine(
        &self,
        alloc: Global,
        other: &Ty,
        how: Combination,
    ) -> Result<Ty, AllocError>
        ensures { IfOk result (λ t. (v : Value) → is_in t v ≡ combined how (is_in self.now v) (is_in other.now v)) }
    {
        let integers = Ranges::combine(alloc, &self.integers, &other.integers, how)?;
        let characters = Ranges::combine(alloc, &self.characters, &other.characters, how)?;
        let symbols = Ranges::combine(alloc, &self.symbols, &other.symbols, how)?;
        let keywords = Ranges::combine(alloc, &self.keywords, &other.keywords, how)?;
        Ok(Ty {
            integers,
            characters,
            symbols,
            keywords,
            kinds: self.kinds.combine(other.kinds, how),
        })
    }

    /// Whether all of this set is in another.
    pub fn sub(&self, other: &Ty) -> bool
        ensures within { OnTrue result ((v : Value) → is_in self.now v ≡ true → is_in other.now v ≡ true) }
        ensures not_within { OnFalse result (HasMore self.now other.now) }
    {
        self.integers.is_subset(&other.integers)
            && self.characters.is_subset(&other.characters)
            && self.symbols.is_subset(&other.symbols)
            && self.keywords.is_subset(&other.keywords)
            && self.kinds.is_subset(other.kinds)
    }

    /// Whether this set and another hold the same values.
    pub fn same(&self, other: &Ty) -> bool
        ensures alike { OnTrue result ((v : Value) → is_in self.now v ≡ is_in other.now v) }
        ensures unlike { OnFalse result (HasMore self.now other.now ⊎ HasMore other.now self.now) }
    {
        self.sub(other) && other.sub(self)
    }
}
