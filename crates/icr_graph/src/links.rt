// Lists of links, which are short in most graphs.

ghost use Rattle.std.specs.Prelude.{◌≡◌, ◌≤◌, take, ◌==◌, if◌then◌else◌, not, [], ◌∷◌, ◌++◌, filter, length, map, slice_get, IfNone, IfOk, OnErr, OnOk, option_to_list};
ghost use Rattle.std.specs.List.{list_any};
ghost use Rattle.icr_graph.specs.Lists.{behind_by, up_to_by, but_last};

use ir_ids::Id;
use smallvec::SmallVec;
use std::alloc::{AllocError, Global};
use std::marker::Model;

// Moves all but one identifier to the front, in their order, and gives their number.
fn keep_others<I: Id>(items: &mut [I], id: I) -> usize
    ensures kept { take result items.new ≡ filter (λ item. not (I.number_of item == I.number_of id)) items.old }
    ensures within { result ≤ length items.old }
{
    let mut kept = 0;
    for index in 0..items.len() {
        let item = items[index];
        if item.number() != id.number() {
            items[kept] = item;
            kept += 1;
        }
    }
    kept
}

// An identifier, or the new one in the place of the old.
fn renamed<I: Id>(item: I, old: I, new: I) -> I
    ensures { result ≡ (if I.number_of item == I.number_of old then new else item) }
{
    if item.number() == old.number() {
        new
    } else {
        item
    }
}

/// A list of identifiers that takes no memory of its own while it has at most four. Contracts see
/// it as the list of its elements.
#[derive(Drop)]
pub struct Links<I: Id + Default> {
    items: SmallVec<I, 4>,
}

impl<I: Id + Default> Model for Links<I> {
    ghost use Rattle.std.specs.Prelude.{List};
    ghost use Rattle.std.specs.Coded.{coded_list};

    ghost Value = { List I };

    ghost coded = { coded_list I.code };

    ghost view = { λ links. links.items.items };
}

impl<I: Id + Default> Links<I> {
    /// The empty list.
    pub fn new(alloc: Global) -> Self
        ensures { result ≡ [] }
    {
        Links {
            items: SmallVec::new(alloc),
        }
    }

    /// The list of these identifiers.
    ///
    /// # Errors
    /// Want of memory alone.
    pub fn of(alloc: Global, ids: &[I]) -> Result<Self, AllocError>
        ensures { IfOk result (λ links. links ≡ ids.now) }
    {
        Ok(Links {
            items: SmallVec::from_slice(alloc, ids)?,
        })
    }

    /// Adds identifiers at the end.
    ///
    /// # Errors
    /// Want of memory alone; the list is then as before.
    pub fn extend(&mut self, ids: &[I]) -> Result<(), AllocError>
        ensures ok { OnOk result (self.new ≡ self.old ++ ids.now) }
        ensures err { OnErr result (self.new ≡ self.old) }
    {
        self.items.extend_from_slice(ids)?;
        Ok(())
    }

    /// The elements.
    pub fn as_slice(&self) -> &[I]
        ensures { result.now ≡ self.now }
    {
        self.items.as_slice()
    }

    /// How many elements there are.
    pub fn len(&self) -> usize
        ensures { result ≡ length self.now }
    {
        self.items.len()
    }

    /// Whether there is no element.
    pub fn is_empty(&self) -> bool
        ensures { result ≡ (length self.now == 0) }
    {
        self.items.is_empty()
    }

    /// Adds an element at the end.
    ///
    /// # Errors
    /// Want of memory alone; the list is then as before.
    pub fn push(&mut self, item: I) -> Result<(), AllocError>
        ensures ok { OnOk result (self.new ≡ self.old ++ item ∷ []) }
        ensures err { OnErr result (self.new ≡ self.old) }
    {
        self.items.push(item)?;
        Ok(())
    }

    /// Takes the last element, if there is one.
    pub fn pop(&mut self) -> Option<I>
        ensures parts { self.old ≡ self.new ++ option_to_list result }
        ensures rest { self.new ≡ but_last self.old }
    {
        self.items.pop()
    }

    /// Whether an identifier is in the list.
    pub fn contains(&self, id: I) -> bool
        ensures { result ≡ list_any (λ item. I.number_of item == I.number_of id) self.now }
    {
        self.as_slice()
            .iter()
            .any(|item| item.number() == id.number())
    }

    /// Whether another identifier is in the list.
    pub fn has_other(&self, id: I) -> bool
        ensures { result ≡ list_any (λ item. not (I.number_of item == I.number_of id)) self.now }
    {
        self.as_slice()
            .iter()
            .any(|item| item.number() != id.number())
    }

    /// A list of the same identifiers.
    ///
    /// # Errors
    /// Want of memory alone.
    pub fn copy(&self) -> Result<Self, AllocError>
        ensures { IfOk result (λ copy. copy ≡ self.now) }
    {
        Ok(Links {
            items: SmallVec::from_slice(*self.items.allocator(), self.items.as_slice())?,
        })
    }

    /// The allocator of the list.
    pub fn allocator(&self) -> Global {
        *self.items.allocator()
    }

    /// The list of one element. It takes no memory.
    pub fn one(alloc: Global, item: I) -> Self
        ensures { result ≡ item ∷ [] }
    {
        Links {
            items: SmallVec::from_buf_and_len(alloc, [item; 4], 1),
        }
    }

    /// Removes what stands behind the first place of an identifier. It takes no memory.
    pub fn cut_behind(&mut self, id: I)
        ensures { self.new ≡ up_to_by (λ item. I.number_of item == I.number_of id) self.old }
    {
        let kept = up_to(self.items.as_slice(), id);
        self.items.truncate(kept);
    }

    /// Removes an identifier wherever it stands. It takes no memory.
    pub fn remove(&mut self, id: I)
        ensures { self.new ≡ filter (λ item. not (I.number_of item == I.number_of id)) self.old }
    {
        let kept = keep_others(self.items.as_mut_slice(), id);
        self.items.truncate(kept);
    }

    /// Puts another identifier in the place of one, wherever it stands. It takes no memory.
    pub fn rename(&mut self, old: I, new: I)
        ensures { self.new ≡ map (λ item. if I.number_of item == I.number_of old then new else item) self.old }
    {
        for item in self.items.as_mut_slice() {
            *item = renamed(*item, old, new);
        }
    }
}

// How many identifiers there are up to one in a list, as far as its first place.
fn up_to<I: Id>(items: &[I], id: I) -> usize
    ensures { take result items.now ≡ up_to_by (λ item. I.number_of item == I.number_of id) items.now }
{
    let rest = behind(items, id);
    items.len() - rest.len()
}

// The identifiers behind one in a list, as far as its first place.
pub(crate) fn behind<'a, I: Id>(items: &'a [I], id: I) -> &'a [I]
    ensures { result.now ≡ behind_by (λ item. I.number_of item == I.number_of id) items.now }
{
    let mut rest = items;
    while let [first, tail @ ..] = rest {
        rest = tail;
        if first.number() == id.number() {
            return rest;
        }
    }
    rest
}
