// How often numbers stand in a list.
ghost use Rattle.std.specs.Prelude.{◌≡◌, ◌==◌, ℕ, count_by, nat_eq, unwrap_or, IfOk};
ghost use Rattle.std.specs.HashMap.{get};
ghost use Rattle.core_form.specs.Facts.{times_in};

use std::alloc::{AllocError, Global};
use std::collections::HashMap;
use std::marker::Model;

/// A list of numbers, with how often each stands in it. A contract sees the list.
#[derive(Drop)]
pub struct Counts {
    numbers: Vec<u32>,
    counts: HashMap<u32, u64>,
}

impl Model for Counts {
    ghost use Rattle.std.specs.Prelude.{ℕ, List, ◌≡◌, ◌==◌, count_by, nat_eq, unwrap_or};
    ghost use Rattle.std.specs.HashMap.{get};

    ghost Value = { List ℕ };

    ghost view = { λ c. c.numbers.items };

    ghost invariant = { λ c. (n : ℕ) → unwrap_or (get nat_eq c.counts n) 0 ≡ count_by (λ x. x == n) c.numbers.items };
}

fn count(alloc: Global, numbers: &[u32]) -> Result<HashMap<u32, u64>, AllocError>
    ensures { IfOk result (λ counts. (n : ℕ) → unwrap_or (get nat_eq counts n) 0 ≡ count_by (λ x. x == n) numbers.now) }
{
    let mut counts = HashMap::new(alloc);
    for number in numbers {
        *counts.entry(*number)?.or_insert(0) += 1;
    }
    Ok(counts)
}

impl Counts {
    /// Counts the numbers of a list.
    ///
    /// # Errors
    /// Want of memory alone.
    pub fn of(alloc: Global, numbers: Vec<u32>) -> Result<Self, AllocError>
        ensures { IfOk result (λ counts. counts ≡ numbers.items) }
    {
        let counts = count(alloc, &numbers)?;
        Ok(Counts { numbers, counts })
    }

    /// How often a number stands there.
    pub fn times(&self, number: u32) -> u64
        ensures { result ≡ times_in number self.now }
    {
        self.counts.get(&number).copied().unwrap_or(0)
    }
}
