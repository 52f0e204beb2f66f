// The values that were seen so far.
ghost use Rattle.std.specs.Prelude.{◌≡◌, ◌++◌, IfOk, OnOk};
ghost use Rattle.lisp_base.specs.Tables.{object_of};
ghost use Rattle.core_form.specs.State.{is_fixnum};
ghost use Rattle.core_form.specs.Counting.{plus as sum};
ghost use Rattle.core_form.specs.Lawful.{values_in};
ghost use Rattle.program_size.specs.Mentions.{data_of};
ghost use Rattle.program_size.specs.Sizes.{object_words};
ghost use Rattle.program_size.specs.Inside.{inside_object};

use lisp_base::{Heap, Obj, ObjId, SymId, Val};
use std::alloc::{AllocError, Global};
use std::collections::HashSet;

/// A sum, or the greatest number where it is past that.
#[tactic(auto, unfolding(core_form::specs::Counting::greatest_count))]
pub(crate) fn plus(total: u64, more: u64) -> u64
    ensures { result ≡ sum total more }
{
    total.saturating_add(more)
}

/// The symbols, the objects and the integers outside the fixnums that were seen.
#[derive(Drop)]
pub(crate) struct Marks {
    symbols: HashSet<u32>,
    objects: HashSet<usize>,
    pub(crate) integers: HashSet<i128>,
    /// The words of the objects.
    pub(crate) words: u64,
    /// Whether a symbol was new since this was last set to false.
    pub(crate) news: bool,
}

/// Whether an integer is a fixnum.
fn is_fixnum(n: i128) -> bool
    ensures { result ≡ is_fixnum n }
{
    -2_305_843_009_213_693_952 <= n && n < 2_305_843_009_213_693_952
}

/// A total with the words of an object.
#[tactic(auto, unfolding(core_form::specs::Counting::greatest_count))]
fn add_words(total: u64, object: &Obj) -> u64
    ensures { result ≡ sum total (object_words (object_of object.now)) }
{
    match object {
        Obj::Cons { .. } => plus(total, 2),
        Obj::Vector(items) => plus(plus(total, 1), items.len() as u64),
        Obj::Str(letters) => {
            let count = letters.len() as u64;
            plus(plus(total, 1), count / 2 + count % 2)
        }
        Obj::Fun { .. } | Obj::Cell(_) => plus(total, 0),
    }
}

/// Adds the values right inside an object.
fn add_inside(object: &Obj, work: &mut Vec<Val>) -> Result<(), AllocError>
    ensures { OnOk result (work.new.items ≡ work.old.items ++ inside_object (object_of object.now)) }
{
    match object {
        Obj::Cons { car, cdr, .. } => {
            work.push(*car)?;
            work.push(*cdr)?;
            Ok(())
        }
        Obj::Vector(items) => {
            work.extend_from_slice(items)?;
            Ok(())
        }
        Obj::Str(_) | Obj::Fun { .. } | Obj::Cell(_) => Ok(()),
    }
}

/// Adds the values right inside a value.
#[tactic(auto, using(crate::proofs::Inside::no_parts, crate::proofs::Inside::parts_of))]
fn add_parts(value: Val, heap: &Heap, work: &mut Vec<Val>) -> Result<(), AllocError>
    ensures { OnOk result (work.new.items ≡ work.old.items ++ values_in (data_of heap.now) value) }
{
    let Val::Ref(id) = value else {
        return Ok(());
    };
    match heap.get(id) {
        Some(object) => add_inside(object, work),
        None => Ok(()),
    }
}

impl Marks {
    ghost use Rattle.program_size.specs.Marking.{has, IsEmpty, Notes, Sees};
    ghost use Rattle.lisp_base.specs.declared.values.Val.TheVariants.{Sym, Ref};

    /// Nothing was seen yet.
    pub(crate) fn new(alloc: Global) -> Self
        ensures { IsEmpty result }
    {
        Marks {
            symbols: HashSet::new(alloc),
            objects: HashSet::new(alloc),
            integers: HashSet::new(alloc),
            words: 0,
            news: false,
        }
    }

    /// Whether a symbol was seen.
    pub(crate) fn has_symbol(&self, id: SymId) -> bool
        ensures { result ≡ has self.now (Sym id) }
    {
        self.symbols.contains(&id.0)
    }

    fn note_symbol(&mut self, id: SymId, heap: &Heap) -> Result<bool, AllocError>
        ensures { IfOk result (λ new. Notes heap.now self.old (Sym id) new self.new) }
    {
        let new = self.symbols.insert(id.0)?;
        self.news = self.news || new;
        Ok(new)
    }

    fn note_object(&mut self, id: ObjId, heap: &Heap) -> Result<bool, AllocError>
        ensures { IfOk result (λ new. Notes heap.now self.old (Ref id) new self.new) }
    {
        let Some(object) = heap.get(id) else {
            return Ok(false);
        };
        let new = self.objects.insert(id.0)?;
        if new {
            self.words = add_words(self.words, object);
        }
        Ok(new)
    }

    /// Notes that a value was seen; whether it is new.
    fn note(&mut self, value: Val, heap: &Heap) -> Result<bool, AllocError>
        ensures { IfOk result (λ new. Notes heap.now self.old value new self.new) }
    {
        match value {
            Val::Sym(id) => self.note_symbol(id, heap),
            Val::Ref(id) => self.note_object(id, heap),
            Val::Int(n) => {
                if is_fixnum(n) {
                    return Ok(false);
                }
                Ok(self.integers.insert(n)?)
            }
            Val::Char(_) => Ok(false),
        }
    }

    /// Sees all that these values reach.
    pub(crate) fn see_all(&mut self, values: Vec<Val>, heap: &Heap) -> Result<(), AllocError>
        ensures { OnOk result (Sees heap.now values.items self.old self.new) }
    {
        let mut work = values;
        while let Some(value) = work.pop() {
            if self.note(value, heap)? {
                add_parts(value, heap, &mut work)?;
            }
        }
        Ok(())
    }
}
