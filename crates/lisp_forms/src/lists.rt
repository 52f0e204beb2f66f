//! Conses, proper lists and the places of forms.

ghost use Rattle.std.specs.Prelude.{◌≡◌, ◌<◌, ◌≤◌, true, false, length, IfOk};
ghost use Rattle.std.specs.Option.{option_map};
ghost use Rattle.lisp_forms.specs.Conses.{is_nil as nil_of, cons_at, place_at, elements as elements_of};

use lisp_base::{Heap, Obj, ObjId, Place, Val, Vals};
use std::alloc::{AllocError, Global};

/// Whether a form is NIL, the empty list.
pub fn is_nil(form: Val) -> bool
    ensures { result ≡ nil_of form }
{
    match form {
        Val::Sym(id) => id.0 == 0,
        Val::Int(_) | Val::Char(_) | Val::Ref(_) => false,
    }
}

/// The CAR and the CDR of a cons; None for anything else.
pub fn cons_of(heap: &Heap, form: Val) -> Option<(Val, Val)>
    ensures { result ≡ cons_at heap.now form }
{
    let Val::Ref(id) = form else {
        return None;
    };
    match heap.get(id) {
        Some(Obj::Cons { car, cdr, .. }) => Some((*car, *cdr)),
        Some(Obj::Vector(_) | Obj::Str(_) | Obj::Fun { .. } | Obj::Cell(_)) | None => None,
    }
}

/// The place of a form: the one kept with its cons. None for a cons made by a macro, and for an
/// atom.
pub fn place_of_form(heap: &Heap, form: Val) -> Option<Place>
    ensures { result ≡ place_at heap.now form }
{
    let Val::Ref(id) = form else {
        return None;
    };
    match heap.get(id) {
        Some(Obj::Cons { place, .. }) => *place,
        Some(Obj::Vector(_) | Obj::Str(_) | Obj::Fun { .. } | Obj::Cell(_)) | None => None,
    }
}

// Whether a heap has more than so many objects.
#[tactic(auto, using(std::proofs::lemmas::Option::slice_get_cases))]
fn has_more(heap: &Heap, count: usize) -> bool
    ensures more { result ≡ true → count < length heap.now }
    ensures none { result ≡ false → length heap.now ≤ count }
{
    heap.get(ObjId(count)).is_some()
}

/// The elements of a proper list; None exactly where the form is an improper or circular list, or
/// an atom other than NIL.
///
/// # Errors
/// Want of memory alone.
pub fn elements(alloc: Global, heap: &Heap, form: Val) -> Result<Option<Vals>, AllocError>
    ensures { IfOk result (λ found. option_map (λ xs. xs.items) found ≡ elements_of heap.now form) }
{
    let mut items = Vec::new(alloc);
    let mut rest = form;
    while !is_nil(rest) {
        let Some((first, others)) = cons_of(heap, rest) else {
            return Ok(None);
        };
        if !has_more(heap, items.len()) {
            return Ok(None);
        }
        items.push(first)?;
        rest = others;
    }
    Ok(Some(items))
}
