// Lists of forms, their places, and what templates give.
use crate::{Template, build, elements, place_of_form};
use lisp_base::{Heap, NIL, Obj, ObjId, Place, Val};
use std::alloc::AllocError;
use std::test::*;

const PLACE: Place = Place::File { offset: 3, tail: 1 };

fn cons(heap: &mut Heap, car: Val, cdr: Val) -> Result<Val, AllocError> {
    let place = Some(PLACE);
    Ok(Val::Ref(heap.add(Obj::Cons { car, cdr, place })?))
}

#[test]
fn proper_lists(rt: HostRuntime) -> Result<(), Fail> {
    let alloc = rt.alloc();
    let mut heap = Heap::new(alloc);
    let last = cons(&mut heap, Val::Int(2), Val::Sym(NIL))?;
    let list = cons(&mut heap, Val::Int(1), last)?;
    let found = elements(alloc, &heap, list)?;
    assert!(rt; found.is_some_and(|items| items.len() == 2));
    let found = elements(alloc, &heap, Val::Sym(NIL))?;
    assert!(rt; found.is_some_and(|items| items.is_empty()));
    assert!(rt; place_of_form(&heap, list) == Some(PLACE));
    assert!(rt; place_of_form(&heap, Val::Int(1)).is_none());
    Ok(())
}

#[test]
fn no_proper_lists(rt: HostRuntime) -> Result<(), Fail> {
    let alloc = rt.alloc();
    let mut heap = Heap::new(alloc);
    let dotted = cons(&mut heap, Val::Int(1), Val::Int(2))?;
    assert!(rt; elements(alloc, &heap, dotted)?.is_none());
    let circular = cons(&mut heap, Val::Int(1), Val::Ref(ObjId(1)))?;
    assert!(rt; elements(alloc, &heap, circular)?.is_none());
    assert!(rt; elements(alloc, &heap, Val::Int(1))?.is_none());
    Ok(())
}

#[test]
fn a_template_is_made(rt: HostRuntime) -> Result<(), Fail> {
    let alloc = rt.alloc();
    let mut heap = Heap::new(alloc);
    let template = Template::List {
        elements: vec![in alloc; Template::Fresh(0), Template::Inner]?,
        tail: Val::Int(3),
    };
    let made = build(alloc, &mut heap, &template, &[Val::Int(1)], Val::Int(2))?;
    assert!(rt; made == Val::Ref(ObjId(1)));
    let first = Obj::Cons {
        car: Val::Int(1),
        cdr: Val::Ref(ObjId(0)),
        place: None,
    };
    assert!(rt; heap.get(ObjId(1)) == Some(&first));
    Ok(())
}
