// Sets of numbers, and values by their numbers.
ghost use Rattle.std.specs.Prelude.{◌≡◌, ℕ, OnOk, IfOk, Some, None, if◌then◌else◌, ◌==◌};
ghost use Rattle.std.specs.Option.{option_or};
ghost use Rattle.core_form.specs.Facts.{has_number, lookup};

use std::alloc::{AllocError, Global};
use std::collections::{HashMap, HashSet};

/// These numbers.
pub fn set_of(alloc: Global, numbers: &[u32]) -> Result<HashSet<u32>, AllocError>
    ensures { IfOk result (λ set. (q : ℕ) → has_number q set.keys ≡ has_number q numbers.now) }
{
    let mut set = HashSet::new(alloc);
    for number in numbers {
        set.insert(*number)?;
    }
    Ok(set)
}

/// Gives a number a value, unless it has one.
fn keep_first<V: Copy + Drop>(
    map: &mut HashMap<u32, V>,
    number: u32,
    value: V,
) -> Result<(), AllocError>
    ensures { OnOk result ((q : ℕ) → lookup q map.new.entries ≡ option_or (lookup q map.old.entries) (if q == number then Some value else None)) }
{
    if !map.contains_key(&number) {
        map.insert(number, value)?;
    }
    Ok(())
}

/// The first value of each number.
pub fn first_values<V: Copy + Drop>(
    alloc: Global,
    entries: &[(u32, V)],
) -> Result<HashMap<u32, V>, AllocError>
    ensures { IfOk result (λ map. (q : ℕ) → lookup q map.entries ≡ lookup q entries.now) }
{
    let mut map = HashMap::new(alloc);
    for entry in entries {
        let (number, value) = *entry;
        keep_first(&mut map, number, value)?;
    }
    Ok(map)
}
