use super::*;
use lisp_base::{Heap, HeapView, NIL, Obj, ObjId, SymKind, SymTab, Val};
use std::alloc::{AllocError, Global};
use std::process::Abort;
use std::test::*;

const ALL: u32 = u32::MAX;

fn cons(heap: &mut Heap, car: Val, cdr: Val) -> Result<Val, AllocError> {
    let place = None;
    Ok(Val::Ref(heap.add(Obj::Cons { car, cdr, place })?))
}

fn named(symbols: &mut SymTab, name: &str) -> Val {
    match symbols.intern(name, SymKind::Plain) {
        Ok(id) => Val::Sym(id),
        Err(_) => Val::Sym(NIL),
    }
}

fn keyword(symbols: &mut SymTab, name: &str) -> Val {
    match symbols.intern(name, SymKind::Keyword) {
        Ok(id) => Val::Sym(id),
        Err(_) => Val::Sym(NIL),
    }
}

// The list of a string and a vector.
fn last_two(alloc: Global, heap: &mut Heap, k: Val) -> Result<Val, AllocError> {
    let letters = vec![in alloc; 120, 34, 121]?;
    let text = Val::Ref(heap.add(Obj::Str(letters))?);
    let items = vec![in alloc; Val::Int(1), k]?;
    let vector = Val::Ref(heap.add(Obj::Vector(items))?);
    let last = cons(heap, vector, Val::Sym(NIL))?;
    cons(heap, text, last)
}

// What a value prints as.
fn prints(
    rt: &(impl Abort + AllocGlobal),
    view: &HeapView,
    w: Val,
    limits: (u32, u32, u32),
    expected: &str,
) -> Result<(), Fail> {
    let (level, length, total) = limits;
    let limits = Limits {
        level,
        length,
        total,
    };
    let text = print(rt.alloc(), view, w, limits)?;
    assert_eq!(rt; text.as_str(), expected);
    Ok(())
}

#[test]
fn lists_within_limits(rt: HostRuntime) -> Result<(), Fail> {
    let mut heap = Heap::new(rt.alloc());
    let mut symbols = SymTab::new(rt.alloc())?;
    let k = keyword(&mut symbols, "K");
    let list = last_two(rt.alloc(), &mut heap, k)?;
    let list = cons(&mut heap, named(&mut symbols, "B"), list)?;
    let list = cons(&mut heap, named(&mut symbols, "A"), list)?;
    let pair = cons(&mut heap, list, Val::Int(-7))?;
    let view = HeapView::new(&heap, &symbols);
    prints(
        &rt,
        &view,
        list,
        (ALL, ALL, ALL),
        "(A B \"x\\\"y\" #(1 :K))",
    )?;
    prints(&rt, &view, list, (1, ALL, ALL), "(A B \"x\\\"y\" #)")?;
    prints(&rt, &view, list, (ALL, 2, ALL), "(A B ...)")?;
    prints(
        &rt,
        &view,
        list,
        (ALL, ALL, 5),
        "(A B \"x\\\"y\" #(... ...))",
    )?;
    prints(&rt, &view, pair, (1, 1, 3), "(# . -7)")?;
    prints(&rt, &view, pair, (0, 1, 1), "#")?;
    prints(&rt, &view, pair, (0, 1, 0), "...")
}

#[test]
fn values_without_parts(rt: HostRuntime) -> Result<(), Fail> {
    let heap = Heap::new(rt.alloc());
    let mut symbols = SymTab::new(rt.alloc())?;
    let fresh = match symbols.fresh() {
        Ok(id) => Val::Sym(id),
        Err(_) => Val::Sym(NIL),
    };
    let view = HeapView::new(&heap, &symbols);
    prints(&rt, &view, fresh, (ALL, ALL, ALL), "#:G1")?;
    prints(&rt, &view, Val::Char(32), (ALL, ALL, ALL), "#\\Space")?;
    prints(&rt, &view, Val::Char(10), (ALL, ALL, ALL), "#\\Newline")?;
    prints(&rt, &view, Val::Char(0xe9), (ALL, ALL, ALL), "#\\é")?;
    prints(&rt, &view, Val::Char(0xd800), (ALL, ALL, ALL), "#\\?")?;
    prints(&rt, &view, Val::Ref(ObjId(99)), (ALL, ALL, ALL), "#<BAD>")
}

#[test]
fn circular_values(rt: HostRuntime) -> Result<(), Fail> {
    let mut heap = Heap::new(rt.alloc());
    let symbols = SymTab::new(rt.alloc())?;
    let round = cons(&mut heap, Val::Int(1), Val::Ref(ObjId(0)))?;
    let deep = cons(&mut heap, Val::Ref(ObjId(1)), Val::Sym(NIL))?;
    let view = HeapView::new(&heap, &symbols);
    prints(&rt, &view, round, (20, 3, 100), "(1 1 1 ...)")?;
    prints(&rt, &view, round, (20, 5, 4), "(1 1 1 ... ... ...)")?;
    prints(&rt, &view, deep, (3, 1, 100), "(((#)))")
}
