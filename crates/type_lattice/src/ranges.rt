//! Sets of integers.

ghost use Rattle.std.specs.Prelude.{◌≡◌, not, ◌&&◌, true, false, [], ℤ, IfOk, Bool, IsTrue};
ghost use Rattle.std.specs.Bool.{OnTrue, OnFalse};
ghost use Rattle.std.specs.List.{list_all};
ghost use Rattle.type_lattice.specs.Borders.{is_within, is_rising, is_started, is_not_ended, passes};
ghost use Rattle.type_lattice.specs.Walks.{combined, Escapes};

use crate::walk::{Combination, Walk, next_border};
use std::alloc::{AllocError, Global};

/// A set of integers that changes at finitely many numbers.
#[derive(Drop, Debug)]
pub(crate) struct Ranges {
    /// Whether the numbers below the first border are in the set.
    pub(crate) below: bool,
    /// The numbers from which on the set changes, in rising order.
    pub(crate) borders: Vec<i128>,
    ghost rising: { IsTrue (is_rising borders.items) },
}

impl Ranges {
    /// No integer.
    pub(crate) fn nothing(alloc: Global) -> Ranges
        ensures set { (z : ℤ) → is_within result.below result.borders.items z ≡ false }
        ensures borders { result.borders.items ≡ [] }
    {
        Ranges {
            below: false,
            borders: Vec::new(alloc),
        }
    }

    /// Every integer.
    pub(crate) fn everything(alloc: Global) -> Ranges
        ensures set { (z : ℤ) → is_within result.below result.borders.items z ≡ true }
        ensures borders { result.borders.items ≡ [] }
    {
        Ranges {
            below: true,
            borders: Vec::new(alloc),
        }
    }

    /// What is in one of two sets, or in both.
    pub(crate) fn combine(
        alloc: Global,
        a: &Ranges,
        b: &Ranges,
        how: Combination,
    ) -> Result<Ranges, AllocError>
        ensures set { IfOk result (λ r. (z : ℤ) → is_within r.below r.borders.items z
            ≡ combined how (is_within a.now.below a.now.borders.items z)
            (is_within b.now.below b.now.borders.items z)) }
        ensures borders { IfOk result (λ r. (p : ℤ → Bool) →
            list_all p a.now.borders.items ≡ true → list_all p b.now.borders.items ≡ true →
            list_all p r.borders.items ≡ true) }
    {
        let mut x = Walk {
            inside: a.below,
            left: &a.borders,
        };
        let mut y = Walk {
            inside: b.below,
            left: &b.borders,
        };
        let below = how.of(x.inside, y.inside);
        let mut inside = below;
        let mut borders = Vec::new(alloc);
        while let Some(border) = next_border(x.left, y.left) {
            x = x.pass(border);
            y = y.pass(border);
            let after = how.of(x.inside, y.inside);
            if after != inside {
                borders.push(border)?;
                inside = after;
            }
        }
        Ok(Ranges { below, borders })
    }

    /// What is not in a set.
    pub(crate) fn opposite(&self, alloc: Global) -> Result<Ranges, AllocError>
        ensures set { IfOk result (λ r. (z : ℤ) → is_within r.below r.borders.items z
            ≡ not (is_within self.now.below self.now.borders.items z)) }
        ensures borders { IfOk result (λ r. r.borders.items ≡ self.now.borders.items) }
    {
        let borders = Vec::from_slice(alloc, &self.borders)?;
        Ok(Ranges {
            below: !self.below,
            borders,
        })
    }

    /// Whether all of a set is in another.
    pub(crate) fn is_subset(&self, of: &Ranges) -> bool
        ensures holds { OnTrue result ((z : ℤ) →
            is_within self.now.below self.now.borders.items z ≡ true →
            is_within of.now.below of.now.borders.items z ≡ true) }
        ensures fails { OnFalse result (Escapes self.now.below self.now.borders.items
            of.now.below of.now.borders.items) }
    {
        let mut x = Walk {
            inside: self.below,
            left: &self.borders,
        };
        let mut y = Walk {
            inside: of.below,
            left: &of.borders,
        };
        if x.inside && !y.inside {
            return false;
        }
        while let Some(border) = next_border(x.left, y.left) {
            x = x.pass(border);
            y = y.pass(border);
            if x.inside && !y.inside {
                return false;
            }
        }
        true
    }

    /// The numbers from one on and below another; where one is missing, without a bound on that side.
    pub(crate) fn between(
        alloc: Global,
        start: Option<i128>,
        end: Option<i128>,
    ) -> Result<Ranges, AllocError>
        ensures set { IfOk result (λ r. (z : ℤ) → is_within r.below r.borders.items z
            ≡ (is_started start z && is_not_ended end z)) }
        ensures borders { IfOk result (λ r. (p : ℤ → Bool) → passes p start ≡ true → passes p end ≡ true →
            list_all p r.borders.items ≡ true) }
    {
        match (start, end) {
            (None, None) => Ok(Ranges {
                below: true,
                borders: Vec::new(alloc),
            }),
            (None, Some(end)) => Ok(Ranges {
                below: true,
                borders: Vec::from_slice(alloc, &[end])?,
            }),
            (Some(start), None) => Ok(Ranges {
                below: false,
                borders: Vec::from_slice(alloc, &[start])?,
            }),
            (Some(start), Some(end)) if start < end => Ok(Ranges {
                below: false,
                borders: Vec::from_slice(alloc, &[start, end])?,
            }),
            _ => Ok(Ranges {
                below: false,
                borders: Vec::new(alloc),
            }),
        }
    }
}
