// Numbers, each once.
ghost use Rattle.std.specs.Prelude.{◌≡◌, ◌∷◌, [], OnOk, IfOk};
ghost use Rattle.core_form.specs.Facts.{has_number, union, without};

use indexmap::IndexSet;
use std::alloc::{AllocError, Global};
use std::marker::Model;

/// Numbers, each once, in the order in which they came. A contract sees the list of them.
#[derive(Drop)]
pub struct Numbers {
    set: IndexSet<u32>,
}

impl Model for Numbers {
    ghost use Rattle.std.specs.Prelude.{ℕ, List};

    ghost Value = { List ℕ };

    ghost view = { λ numbers. numbers.set.keys };
}

impl Numbers {
    /// No number.
    pub fn new(alloc: Global) -> Self
        ensures { result ≡ [] }
    {
        Numbers {
            set: IndexSet::new(alloc),
        }
    }

    /// These numbers.
    ///
    /// # Errors
    /// Want of memory alone.
    pub fn of(alloc: Global, numbers: &[u32]) -> Result<Self, AllocError>
        ensures { IfOk result (λ all. all ≡ union [] numbers.now) }
    {
        let mut all = Numbers::new(alloc);
        all.unite(numbers)?;
        Ok(all)
    }

    /// Whether a number is there.
    pub fn has(&self, number: u32) -> bool
        ensures { result ≡ has_number number self.now }
    {
        self.set.contains(&number)
    }

    /// Adds a number that is not there yet.
    ///
    /// # Errors
    /// Want of memory alone.
    pub fn add(&mut self, number: u32) -> Result<(), AllocError>
        ensures { OnOk result (self.new ≡ union self.old (number ∷ [])) }
    {
        self.set.insert(number)?;
        Ok(())
    }

    /// Adds the numbers that are not there yet, in their order.
    ///
    /// # Errors
    /// Want of memory alone; some may then have been added.
    pub fn unite(&mut self, others: &[u32]) -> Result<(), AllocError>
        ensures { OnOk result (self.new ≡ union self.old others.now) }
    {
        for other in others {
            self.add(*other)?;
        }
        Ok(())
    }

    /// The numbers in their order.
    pub fn as_slice(&self) -> &[u32]
        ensures { result.now ≡ self.now }
    {
        self.set.as_slice()
    }
}

/// Those of some numbers that are not among others.
///
/// # Errors
/// Want of memory alone.
pub fn others_of(alloc: Global, numbers: &[u32], among: &Numbers) -> Result<Vec<u32>, AllocError>
    ensures { IfOk result (λ others. others.items ≡ without numbers.now among.now) }
{
    let mut others = Vec::new(alloc);
    for number in numbers {
        if !among.has(*number) {
            others.push(*number)?;
        }
    }
    Ok(others)
}
