// Primitives by their symbols, and the specifiers of the types in their table, with ample memory.
use super::*;
use std::test::*;

#[test]
fn primitives_are_found(rt: HostRuntime) -> Result<(), Fail> {
    let mut table = SymTab::new(rt.alloc())?;
    let multiply = table.intern("*", SymKind::Plain).ok().ok_or("no symbol")?;
    let store = table
        .intern("%SCHARSET", SymKind::Plain)
        .ok()
        .ok_or("no symbol")?;
    let macro_name = table
        .intern("COND", SymKind::Plain)
        .ok()
        .ok_or("no symbol")?;
    let keyword = table
        .intern("CAR", SymKind::Keyword)
        .ok()
        .ok_or("no symbol")?;
    assert_eq!(rt; prim_of(multiply), Some(Primitive::Multiply));
    assert_eq!(rt; prim_of(store), Some(Primitive::SetSchar));
    assert_eq!(rt; prim_of(macro_name), None);
    assert_eq!(rt; prim_of(keyword), None);
    assert_eq!(rt; prim_of(NIL), None);
    Ok(())
}

#[test]
fn rows_are_those_of_the_table(rt: HostRuntime) -> Result<(), Fail> {
    let row = Primitive::SetSchar.row();
    assert_eq!(rt;
        row.args,
        [PrimType::SimpleString, PrimType::T, PrimType::Character]
    );
    assert_eq!(rt; row.count, 3);
    assert_eq!(rt; row.gives, PrimType::Character);
    assert_eq!(rt; row.own, Own::Index);
    assert_eq!(rt; Primitive::List.row().rest, Some(PrimType::T));
    Ok(())
}

#[test]
fn types_have_specifiers(rt: HostRuntime) -> Result<(), Fail> {
    let alloc = rt.alloc();
    let length = TypeSpec::Integer {
        lo: Bound::At(0),
        hi: Bound::At(16_777_215),
    };
    assert!(rt; prim_spec(alloc, PrimType::Length)? == length);
    assert!(rt; prim_spec(alloc, PrimType::Never)? == TypeSpec::Named(TypeName::Nil));
    let settable = prim_spec(alloc, PrimType::Settable)?;
    let is_both = matches!(&settable, TypeSpec::And(_));
    assert!(rt; is_both);
    Ok(())
}
