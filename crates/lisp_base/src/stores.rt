// Values that are seen in a heap and a symbol table.
ghost use Rattle.lisp_base.specs.declared.values.Val.{Val};
ghost use Rattle.lisp_base.specs.InStore.{items_of, letters_of, make_store, name_count, object_shape, shown_count, store_shown, symbol_shape};
ghost use Rattle.lisp_base.specs.Shown.{below, item_count, letter_count};
ghost use Rattle.lisp_base.specs.Tables.{object_of};
ghost use Rattle.std.specs.Prelude.{◌≡◌, Some, chars, length, slice_get, slice_index, slice_index_or};

use crate::heap::Heap;
use crate::shapes::{MOST_ELEMENTS, Shape, View};
use crate::symbols::SymTab;
use crate::values::{Obj, SymId, Val};
use std::marker::Model;

/// The view of the values of a heap with a symbol table.
///
/// A value is `Bad` exactly where its number isn't there, it is a cell, or it is a vector, a string or a symbol whose elements
/// or name's characters are more than `MOST_ELEMENTS`.
#[derive(Drop)]
pub struct HeapView<'a> {
    heap: &'a Heap,
    symbols: &'a SymTab,
}

impl<'a> Model for HeapView<'a> {
    ghost use Rattle.lisp_base.specs.InStore.{Store, make_store};

    ghost Value = { Store };

    ghost view = { λ v. make_store v.heap.now v.symbols.now.symbols };
}

impl<'a> HeapView<'a> {
    /// The view of the values of this heap and this table.
    pub fn new(heap: &'a Heap, symbols: &'a SymTab) -> HeapView<'a>
        ensures { result ≡ make_store heap.now symbols.now.symbols }
    {
        HeapView { heap, symbols }
    }
}

/// A number of elements or characters that can be shown.
#[tactic(auto, unfolding(crate::specs::Shown::most_elements))]
fn shown_count(count: usize) -> Option<u32>
    ensures { result ≡ shown_count count }
{
    if count <= MOST_ELEMENTS as usize {
        Some(count as u32)
    } else {
        None
    }
}

/// How many characters a name has.
fn name_length(name: &str) -> usize
    ensures { result ≡ length (chars name.now) }
{
    name.chars().count()
}

/// The character of a name at an index.
fn character_at(name: &str, i: usize) -> Option<char>
    ensures { result ≡ slice_get (chars name.now) i }
{
    name.chars().nth(i)
}

/// The shape of the symbol with this number.
fn symbol_shape(symbols: &SymTab, id: SymId) -> Shape<Val>
    ensures { result ≡ symbol_shape (slice_get symbols.now.symbols id.0) }
{
    let (Some(name), Some(kind)) = (symbols.name(id), symbols.kind(id)) else {
        return Shape::Bad;
    };
    match shown_count(name_length(name)) {
        Some(count) => Shape::Sym(kind, count),
        None => Shape::Bad,
    }
}

/// The shape of an object.
fn object_shape(object: &Obj) -> Shape<Val>
    ensures { result ≡ object_shape (Some (object_of object.now)) }
{
    match object {
        Obj::Cons { car, cdr, .. } => Shape::Cons(*car, *cdr),
        Obj::Vector(items) => match shown_count(items.len()) {
            Some(count) => Shape::Vector(count),
            None => Shape::Bad,
        },
        Obj::Str(letters) => match shown_count(letters.len()) {
            Some(count) => Shape::Str(count),
            None => Shape::Bad,
        },
        Obj::Fun { .. } => Shape::Fun,
        Obj::Cell(_) => Shape::Bad,
    }
}

/// The element of an object, if it is a vector.
fn object_element(object: &Obj, i: u32) -> Option<Val>
    ensures { (v : Val) → result ≡ below (item_count (object_shape (Some (object_of object.now)))) i (slice_index_or (items_of (Some (object_of object.now))) i v) }
{
    match object {
        Obj::Vector(items) => {
            shown_count(items.len())?;
            items.get(i as usize).copied()
        }
        Obj::Cons { .. } | Obj::Str(_) | Obj::Fun { .. } | Obj::Cell(_) => None,
    }
}

/// The letter of an object, if it is a string.
fn object_letter(object: &Obj, i: u32) -> Option<u32>
    ensures { result ≡ below (letter_count (object_shape (Some (object_of object.now)))) i (slice_index (letters_of (Some (object_of object.now))) i) }
{
    match object {
        Obj::Str(letters) => {
            shown_count(letters.len())?;
            letters.get(i as usize).copied()
        }
        Obj::Cons { .. } | Obj::Vector(_) | Obj::Fun { .. } | Obj::Cell(_) => None,
    }
}

/// The letter of a name.
fn name_letter(name: &str, i: u32) -> Option<u32>
    ensures { result ≡ below (name_count name.now) i (slice_index (chars name.now) i) }
{
    shown_count(name_length(name))?;
    Some(u32::from(character_at(name, i as usize)?))
}

impl View for HeapView<'_> {
    type Word = Val;

    ghost shown = { store_shown };

    fn shape(&self, w: Val) -> Shape<Val> {
        match w {
            Val::Int(n) => Shape::Int(n),
            Val::Char(code) => Shape::Char(code),
            Val::Sym(id) => symbol_shape(self.symbols, id),
            Val::Ref(id) => match self.heap.get(id) {
                Some(object) => object_shape(object),
                None => Shape::Bad,
            },
        }
    }

    fn element(&self, w: Val, i: u32) -> Option<Val> {
        match w {
            Val::Ref(id) => object_element(self.heap.get(id)?, i),
            Val::Int(_) | Val::Char(_) | Val::Sym(_) => None,
        }
    }

    fn letter(&self, w: Val, i: u32) -> Option<u32> {
        match w {
            Val::Sym(id) => name_letter(self.symbols.name(id)?, i),
            Val::Ref(id) => object_letter(self.heap.get(id)?, i),
            Val::Int(_) | Val::Char(_) => None,
        }
    }
}
