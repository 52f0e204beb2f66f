//! What an expansion knows and counts.

ghost use Rattle.std.specs.Prelude.{◌≡◌};
ghost use Rattle.expansion.specs.Steps.{begin as begun_by, take_function as function_taken, take_numbers as numbers_taken};
ghost use Rattle.form_expander.specs.Outcomes.{Follows};
ghost use Rattle.form_expander.specs.Reading.{scope_of, world_of};

use crate::fault::Fault;
use crate::scope::Scope;
use declarations::{Policy, Typed};
use expansion::ExpandKind;
use lisp_base::{Heap, SymId, SymTab};

/// The symbols and objects, what has been proclaimed of variables in the file, the number of the
/// next variable, local function, block or tag of the top-level form, and its functions and nodes
/// so far.
#[derive(Drop)]
pub struct World {
    pub symbols: SymTab,
    pub heap: Heap,
    pub specials: Vec<SymId>,
    pub declaimed: Vec<Typed>,
    pub policy: Policy,
    pub next: u32,
    pub functions: u32,
    pub nodes: u32,
}

/// The most nodes of a top-level form.
const MOST_NODES: u32 = 4000;

impl World {
    /// A node that counts so much begins, where so many levels are left.
    ///
    /// # Errors
    /// `TooManyNodes` where the form has more than 4,000 nodes with these, and `TooNested` where no
    /// level is left, both at the form that is being expanded.
    #[tactic(auto, unfolding(expansion::specs::Steps::begin, expansion::specs::Steps::begun, expansion::specs::Steps::most_nodes))]
    #[inline(never)]
    pub(crate) fn begin(&mut self, count: u32, levels: u32, scope: &Scope) -> Result<(), Fault>
        ensures follows { Follows (λ _. tt) (begun_by count levels (scope_of scope.now) (world_of self.old)) result (world_of self.new) }
        ensures symbols { self.new.symbols ≡ self.old.symbols }
    {
        let place = scope.place;
        let nodes = match self.nodes.checked_add(count) {
            Some(nodes) if nodes <= MOST_NODES => nodes,
            Some(_) | None => {
                return Err(Fault::Refused {
                    kind: ExpandKind::TooManyNodes,
                    place,
                });
            }
        };
        if levels == 0 {
            return Err(Fault::Refused {
                kind: ExpandKind::TooNested,
                place,
            });
        }
        self.nodes = nodes;
        Ok(())
    }

    /// Takes the next numbers of variables, local functions, blocks or tags, and gives the first.
    ///
    /// # Errors
    /// Want of memory, where the numbers end.
    #[tactic(auto, unfolding(expansion::specs::Steps::take_numbers))]
    pub(crate) fn take_numbers(&mut self, count: u32) -> Result<u32, Fault>
        ensures follows { Follows (λ n. n) (numbers_taken count (world_of self.old)) result (world_of self.new) }
        ensures symbols { self.new.symbols ≡ self.old.symbols }
    {
        let first = self.next;
        self.next = first.checked_add(count).ok_or(Fault::Memory)?;
        Ok(first)
    }

    /// Takes the number of the next function.
    ///
    /// # Errors
    /// Want of memory, where the numbers end.
    #[tactic(auto, unfolding(expansion::specs::Steps::take_function))]
    pub(crate) fn take_function(&mut self) -> Result<u32, Fault>
        ensures follows { Follows (λ n. n) (function_taken (world_of self.old)) result (world_of self.new) }
        ensures symbols { self.new.symbols ≡ self.old.symbols }
    {
        let number = self.functions;
        self.functions = number.checked_add(1).ok_or(Fault::Memory)?;
        Ok(number)
    }
}
