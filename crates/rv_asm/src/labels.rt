//! The places of labels.

ghost use Rattle.std.specs.Prelude.{◌≡◌, ◌≤◌, ◌^◌, ◌⊎◌, List, [], ◌∷◌, ◌++◌, OnOk, IfErr, IfSome, None};
ghost use Rattle.rv_asm.specs.Places.{mark, place_in};
ghost use Rattle.rv_asm.specs.Table.{Agrees, IsDoubleLabel};
ghost use Rattle.rv_asm.specs.declared.assembled.Mark.{Mark};

use crate::assembled::Mark;
use crate::fault::AsmFault;
use std::alloc::Global;
use std::collections::BTreeMap;
use std::marker::Model;

/// The marks of labels in the order in which they came, no label twice. Contracts see the list of the marks.
#[derive(Drop)]
pub(crate) struct Labels {
    marks: Vec<Mark>,
    places: BTreeMap<u32, u64>,
}

impl Model for Labels {
    ghost Value = { List Mark };

    ghost view = { λ l. l.marks.items };

    ghost invariant = { λ l. Agrees l.marks.items l.places };
}

impl Labels {
    /// No labels.
    pub(crate) fn new(alloc: Global) -> Self
        ensures { result ≡ [] }
    {
        Labels {
            marks: Vec::new(alloc),
            places: BTreeMap::new(alloc),
        }
    }

    /// The place of a label, where it has one.
    pub(crate) fn place(&self, label: u32) -> Option<u64>
        ensures place { result ≡ place_in self.now label }
        ensures short { IfSome result (λ at. at ≤ 2 ^ 30) }
    {
        self.places.get(&label).copied()
    }

    /// Adds a label at a place. `DoubleLabel` exactly where it has one.
    pub(crate) fn add(&mut self, label: u32, at: u64) -> Result<(), AsmFault>
        requires { at ≤ 2 ^ 30 }
        ensures added { OnOk result (self.new ≡ self.old ++ mark label at ∷ []) }
        ensures fresh { OnOk result (place_in self.old label ≡ None) }
        ensures fault { IfErr result (λ e. (e ≡ AsmFault.Memory) ⊎ IsDoubleLabel self.old label e) }
    {
        if self.places.contains_key(&label) {
            return Err(AsmFault::DoubleLabel { label });
        }
        self.marks.reserve(1)?;
        self.places.insert(label, at)?;
        self.marks.push(Mark { id: label, at })?;
        Ok(())
    }

    /// The marks.
    pub(crate) fn into_marks(self) -> Vec<Mark>
        ensures { result.items ≡ self }
    {
        let Labels { marks, places } = self;
        drop(places);
        marks
    }
}
