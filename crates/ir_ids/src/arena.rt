// Arenas: values under numbers that they give out.

ghost use Rattle.std.specs.Prelude.{◌≡◌, [], None, Some, IfErr, IfNone, IfOk, OnErr, OnOk, OnSome, option_copied};
ghost use Rattle.std.specs.Option.{option_copied_mut};
ghost use Rattle.std.specs.Borrow.{sem};
ghost use Rattle.ir_ids.specs.Entries.{map_of, with_entry};

use crate::ids::Id;
use slab::Slab;
use std::alloc::Global;
use std::marker::{Model, PhantomData};
use std::mem;

/// Values under identifiers. A contract sees an arena as its list of slots, of which that of a
/// live number has its value; `map_of` reads it as a map.
#[derive(Drop)]
pub struct Arena<I: Id, T: Drop> {
    slots: Slab<T>,
    ids: PhantomData<I>,
}

impl<I: Id, T: Drop> Model for Arena<I, T> {
    ghost use Rattle.std.specs.Prelude.{List, Option};
    ghost use Rattle.std.specs.Coded.{coded_list, coded_option};

    ghost Value = { List (Option T) };

    ghost coded = { coded_list (coded_option T.code) };

    ghost view = { λ arena. arena.slots.slots };
}

impl<I: Id, T: Drop> Arena<I, T> {
    ghost use Rattle.ir_ids.specs.Lending.{lends_entry};

    /// An arena without entries. It takes no memory yet.
    pub fn new(alloc: Global) -> Self
        ensures { result ≡ [] }
    {
        Arena {
            slots: Slab::new(alloc),
            ids: PhantomData,
        }
    }

    /// Keeps a value under an identifier that is not live, one that was retired perhaps. Every
    /// other entry stays.
    ///
    /// # Errors
    /// The value comes back for want of memory alone; the arena is then as before.
    pub fn add(&mut self, value: T) -> Result<I, T>
        ensures vacant { IfOk result (λ id. map_of self.old (I.number_of id) ≡ None) }
        ensures added { IfOk result (λ id. map_of self.new ≡ with_entry (map_of self.old) (I.number_of id) (Some value)) }
        ensures back { IfErr result (λ back. back ≡ value) }
        ensures err { OnErr result (self.new ≡ self.old) }
    {
        match self.slots.insert(value) {
            Ok(number) => Ok(I::of(number)),
            Err(failed) => Err(failed.value),
        }
    }

    /// The value of an identifier; None exactly where it is not live.
    pub fn get(&self, id: I) -> Option<&T>
        ensures { option_copied result ≡ map_of self.now (I.number_of id) }
    {
        self.slots.get(id.number())
    }

    /// The value of an identifier for writing; None exactly where it is not live.
    pub fn get_mut(&mut self, id: I) -> Option<&mut T>
        ensures* writes_back { sem 𝓛 (lends_entry I.row T.row I.Id self.entry (I.number_of id) result) }
        ensures value { option_copied_mut result ≡ map_of self.old (I.number_of id) }
    {
        self.slots.get_mut(id.number())
    }

    /// Puts a value in the place of another, which is given back. Every other entry stays. It takes
    /// no memory.
    ///
    /// # Errors
    /// The new value comes back exactly where the identifier is not live; the arena is then as
    /// before.
    #[tactic(auto, using(crate::specs::Laws::set_entry))]
    pub fn change(&mut self, id: I, value: T) -> Result<T, T>
        ensures ok { IfOk result (λ before. map_of self.old (I.number_of id) ≡ Some before) }
        ensures changed { OnOk result (map_of self.new ≡ with_entry (map_of self.old) (I.number_of id) (Some value)) }
        ensures back { IfErr result (λ back. back ≡ value) }
        ensures absent { OnErr result (map_of self.old (I.number_of id) ≡ None) }
        ensures err { OnErr result (self.new ≡ self.old) }
    {
        let Some(entry) = self.slots.get_mut(id.number()) else {
            return Err(value);
        };
        Ok(mem::replace(entry, value))
    }

    /// Removes an entry and gives its value; None exactly where the identifier is not live. Every
    /// other entry stays. It takes no memory.
    pub fn retire(&mut self, id: I) -> Option<T>
        ensures value { result ≡ map_of self.old (I.number_of id) }
        ensures retired { map_of self.new ≡ with_entry (map_of self.old) (I.number_of id) None }
        ensures absent { IfNone result (self.new ≡ self.old) }
    {
        self.slots.try_remove(id.number())
    }
}
