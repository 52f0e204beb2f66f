//! The heap: the objects that values refer to.

ghost use Rattle.std.specs.Prelude.{◌≡◌, ◌+◌, ◌<◌, ◌++◌, ◌∷◌, [], IfErr, IfOk, None, OnErr, OnOk, Some, length, slice_get, slice_set};
ghost use Rattle.std.specs.Option.{option_map};
ghost use Rattle.lisp_base.specs.Tables.{object_of};

use crate::values::{Obj, ObjId};
use std::alloc::{AllocError, Global};
use std::marker::Model;
use std::mem;

/// Objects, numbered from 0 in the order in which they were added. None is ever removed. A
/// contract sees a heap as the list of its objects.
#[derive(Drop)]
pub struct Heap {
    objects: Vec<Obj>,
}

impl Model for Heap {
    ghost use Rattle.std.specs.Prelude.{List, map};
    ghost use Rattle.lisp_base.specs.Tables.{Object, object_of};

    ghost Value = { List Object };

    ghost view = { λ heap. map object_of heap.objects.items };
}

impl Heap {
    /// A heap without objects.
    pub fn new(alloc: Global) -> Self
        ensures { result ≡ [] }
    {
        Heap {
            objects: Vec::new(alloc),
        }
    }

    /// Adds an object, whose number is the number of objects before.
    ///
    /// # Errors
    /// Want of memory alone; the heap is then as before.
    pub fn add(&mut self, obj: Obj) -> Result<ObjId, AllocError>
        ensures ok { IfOk result (λ id. (id.0 ≡ length self.old) × (self.new ≡ self.old ++ object_of obj ∷ [])) }
        ensures err { OnErr result (self.new ≡ self.old) }
    {
        let number = self.objects.len();
        self.objects.push(obj)?;
        Ok(ObjId(number))
    }

    /// The object of a number; None exactly where it is none of the heap's.
    pub fn get(&self, id: ObjId) -> Option<&Obj>
        ensures { option_map (λ obj. object_of obj.now) result ≡ slice_get self.now id.0 }
    {
        self.objects.get(id.0)
    }

    /// Puts an object in the place of another, which is given back.
    ///
    /// # Errors
    /// The new object comes back exactly where the number is none of the heap's, which is then as
    /// before.
    pub fn change(&mut self, id: ObjId, obj: Obj) -> Result<Obj, Obj>
        ensures ok { IfOk result (λ before. slice_get self.old id.0 ≡ Some (object_of before)) }
        ensures changed { OnOk result (self.new ≡ slice_set self.old id.0 (object_of obj)) }
        ensures back { IfErr result (λ back. back ≡ obj) }
        ensures unchanged { OnErr result (self.new ≡ self.old) }
        ensures absent { OnErr result (slice_get self.old id.0 ≡ None) }
    {
        if id.0 >= self.objects.len() {
            return Err(obj);
        }
        Ok(mem::replace(&mut self.objects[id.0], obj))
    }
}
