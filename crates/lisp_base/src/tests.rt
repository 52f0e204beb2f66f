use super::*;
use std::test::*;

#[test]
fn names_are_found(rt: HostRuntime) -> Result<(), Fail> {
    let mut table = SymTab::new(rt.alloc())?;
    assert_eq!(rt; table.name(NIL), Some("NIL"));
    assert_eq!(rt; table.name(T), Some("T"));
    assert_eq!(rt; table.name(SymId(2)), Some("QUOTE"));
    let count = base_names().len() as u32;
    assert_eq!(rt; table.name(SymId(count)), None);
    assert_eq!(rt; table.intern("T", SymKind::Plain).ok(), Some(T));
    assert_eq!(rt;
        table.intern("T", SymKind::Keyword).ok(),
        Some(SymId(count))
    );
    assert_eq!(rt; table.kind(SymId(count)), Some(SymKind::Keyword));
    assert_eq!(rt; table.fresh().ok(), Some(SymId(count + 1)));
    assert_eq!(rt; table.fresh().ok(), Some(SymId(count + 2)));
    assert_eq!(rt; table.name(SymId(count + 2)), Some("G2"));
    table.restart();
    assert_eq!(rt; table.fresh().ok(), Some(SymId(count + 3)));
    assert_eq!(rt; table.name(SymId(count + 3)), Some("G1"));
    assert_eq!(rt;
        table.intern("G1", SymKind::Plain).ok(),
        Some(SymId(count + 4))
    );
    Ok(())
}

#[test]
fn tables_end(rt: HostRuntime) -> Result<(), Fail> {
    let mut table = SymTab::new(rt.alloc())?;
    for _ in base_names().len()..65_536 {
        assert!(rt; table.fresh().is_ok());
    }
    assert!(rt; table.fresh() == Err(SymFault::TooMany));
    assert!(rt; table.intern("CAR", SymKind::Keyword) == Err(SymFault::TooMany));
    assert_eq!(rt; table.intern("T", SymKind::Plain).ok(), Some(T));
    Ok(())
}

#[test]
fn objects_are_kept(rt: HostRuntime) -> Result<(), Fail> {
    let mut heap = Heap::new(rt.alloc());
    let first = heap.add(Obj::Cell(Val::Int(7)))?;
    let second = heap.add(Obj::Cell(Val::Sym(NIL)))?;
    assert_eq!(rt; first, ObjId(0));
    assert_eq!(rt; second, ObjId(1));
    assert!(rt; heap.change(first, Obj::Cell(Val::Int(8))) == Ok(Obj::Cell(Val::Int(7))));
    assert!(rt; heap.change(ObjId(2), Obj::Cell(Val::Int(9))) == Err(Obj::Cell(Val::Int(9))));
    assert!(rt; heap.get(first) == Some(&Obj::Cell(Val::Int(8))));
    assert!(rt; heap.get(ObjId(2)).is_none());
    Ok(())
}

#[test]
fn base_names_have_symbols(rt: HostRuntime) -> Result<(), Fail> {
    let mut table = SymTab::new(rt.alloc())?;
    let read = table
        .intern("MULTIPLE-VALUE-CALL", SymKind::Plain)
        .ok()
        .ok_or("no symbol")?;
    assert_eq!(rt; read, base_symbols::MULTIPLE_VALUE_CALL);
    assert_eq!(rt; base_name_of(read), Some("MULTIPLE-VALUE-CALL"));
    assert_eq!(rt; base_name_of(SymId(0)), Some("NIL"));
    let last = base_names().len() as u32 - 1;
    assert_eq!(rt; base_name_of(SymId(last)), Some("INITIAL-ELEMENT"));
    assert_eq!(rt; base_name_of(SymId(last + 1)), None);
    Ok(())
}
