use super::*;
use lisp_base::{Heap, NIL, Obj, ObjId, Place, SymId, SymKind, SymTab, T, Val, base_names};
use std::alloc::Global;
use std::test::*;

fn refusal(alloc: Global, bytes: &[u8]) -> Result<Option<(ReadKind, u32)>, Fail> {
    let mut symbols = SymTab::new(alloc)?;
    let mut heap = Heap::new(alloc);
    match read_file(alloc, bytes, &mut symbols, &mut heap) {
        Ok(_) => Ok(None),
        Err(ReadFault::Refused { kind, offset }) => Ok(Some((kind, offset))),
        Err(ReadFault::Memory) => Err(Fail::from("memory")),
    }
}

// The value of a file of one form, if it is no object.
fn value(alloc: Global, bytes: &[u8]) -> Result<Val, Fail> {
    let mut symbols = SymTab::new(alloc)?;
    let mut heap = Heap::new(alloc);
    let forms = read_file(alloc, bytes, &mut symbols, &mut heap)
        .ok()
        .ok_or("the file has forms")?;
    Ok(forms.get(0).ok_or("a form")?.form)
}

#[test]
fn refusals(rt: HostRuntime) -> Result<(), Fail> {
    let alloc = rt.alloc();
    let rows: [(&[u8], ReadKind, u32); 33] = [
        (b")", ReadKind::Unbalanced, 0),
        (b"(car", ReadKind::Eof, 4),
        (b"1.5", ReadKind::Unsupported, 0),
        (b"\xFF", ReadKind::NotText, 0),
        (b"a b \xC3", ReadKind::NotText, 4),
        (b" :", ReadKind::BadToken, 1),
        (b"(a . b c)", ReadKind::BadToken, 7),
        (b"(a . b \"", ReadKind::BadToken, 7),
        (b"(a .)", ReadKind::BadToken, 4),
        (b"(. a)", ReadKind::BadToken, 1),
        (b"#(a . b)", ReadKind::BadToken, 4),
        (b"(')", ReadKind::BadToken, 2),
        (b"')", ReadKind::Unbalanced, 1),
        (b",a", ReadKind::BadToken, 0),
        (b"`,,a", ReadKind::BadToken, 2),
        (b"`,@a", ReadKind::BadToken, 1),
        (b"`(a `b)", ReadKind::Unsupported, 4),
        (b"`#(,a)", ReadKind::Unsupported, 3),
        (b"\"\xC3\xA9\" ...", ReadKind::BadToken, 5),
        (b"a:b", ReadKind::Unsupported, 0),
        (b"1/2", ReadKind::Unsupported, 0),
        (b"-1e5", ReadKind::Unsupported, 0),
        (b"9223372036854775808", ReadKind::Unsupported, 0),
        (b"-9223372036854775809", ReadKind::Unsupported, 0),
        (b"#b12", ReadKind::BadToken, 0),
        (b"#x", ReadKind::BadToken, 0),
        (b"#:a", ReadKind::Unsupported, 0),
        (b"#\\spice", ReadKind::BadToken, 0),
        (b"a #", ReadKind::Eof, 3),
        (b"#\\", ReadKind::Eof, 2),
        (b"#| #| |#", ReadKind::Eof, 8),
        (b"a\x01b", ReadKind::BadToken, 0),
        (b"\"abc", ReadKind::Eof, 4),
    ];
    for (bytes, kind, offset) in &rows {
        assert!(rt; refusal(alloc, bytes)? == Some((*kind, *offset)));
    }
    Ok(())
}

#[test]
fn atoms(rt: HostRuntime) -> Result<(), Fail> {
    let alloc = rt.alloc();
    let rows: [(&[u8], Val); 16] = [
        (b"nil", Val::Sym(NIL)),
        (b"; t\n T", Val::Sym(T)),
        (b"#| a #| b |# c |# t", Val::Sym(T)),
        (b"\xEF\xBB\xBFt", Val::Sym(T)),
        (b"9223372036854775807", Val::Int(9_223_372_036_854_775_807)),
        (
            b"-9223372036854775808",
            Val::Int(-9_223_372_036_854_775_808),
        ),
        (b"+7.", Val::Int(7)),
        (b"#X-ff", Val::Int(-255)),
        (b"#o17", Val::Int(15)),
        (b"#b101", Val::Int(5)),
        (b"#\\a", Val::Char(97)),
        (b"#\\)", Val::Char(41)),
        (b"#\\Space", Val::Char(32)),
        (b"#\\LINEFEED", Val::Char(10)),
        (b"#\\\xC3\xA9", Val::Char(233)),
        (b"#\\rubout", Val::Char(127)),
    ];
    for (bytes, wanted) in &rows {
        assert!(rt; value(alloc, bytes)? == *wanted);
    }
    Ok(())
}

#[test]
fn lists(rt: HostRuntime) -> Result<(), Fail> {
    let alloc = rt.alloc();
    let mut symbols = SymTab::new(alloc)?;
    let mut heap = Heap::new(alloc);
    let forms = read_file(alloc, b" (a . :a) 'b #(\"x\\\"\")", &mut symbols, &mut heap)
        .ok()
        .ok_or("the file has forms")?;
    assert_eq!(rt; forms.len(), 3);
    let base = base_names().len() as u32;
    let a = SymId(base);
    let a_keyword = SymId(base.wrapping_add(1));
    let b = SymId(base.wrapping_add(2));
    assert_eq!(rt; symbols.name(a), Some("A"));
    assert_eq!(rt; symbols.kind(a_keyword), Some(SymKind::Keyword));
    let pair = Obj::Cons {
        car: Val::Sym(a),
        cdr: Val::Sym(a_keyword),
        place: Some(Place::File { offset: 1, tail: 0 }),
    };
    assert!(rt; heap.get(ObjId(0)) == Some(&pair));
    let last = Obj::Cons {
        car: Val::Sym(b),
        cdr: Val::Sym(NIL),
        place: Some(Place::File {
            offset: 10,
            tail: 1,
        }),
    };
    assert!(rt; heap.get(ObjId(1)) == Some(&last));
    assert_eq!(rt; forms.get(1).ok_or("a form")?.offset, 10);
    let text = Obj::Str(vec![in alloc; 120, 34]?);
    assert!(rt; heap.get(ObjId(3)) == Some(&text));
    Ok(())
}

// So many times the first bytes, then the others.
fn nested(alloc: Global, count: usize, front: &[u8], back: &[u8]) -> Result<Vec<u8>, Fail> {
    let mut bytes = Vec::new(alloc);
    for _ in 0..count {
        bytes.extend_from_slice(front)?;
    }
    bytes.extend_from_slice(back)?;
    Ok(bytes)
}

#[test]
fn limits(rt: HostRuntime) -> Result<(), Fail> {
    let alloc = rt.alloc();
    let deep = nested(alloc, 200, b"'", b"a")?;
    assert!(rt; refusal(alloc, &deep)?.is_none());
    let deeper = nested(alloc, 200, b"'", b"#(a)")?;
    assert!(rt; refusal(alloc, &deeper)? == Some((ReadKind::TooDeep, 200)));
    let long = nested(alloc, 254, b"a", b"b")?;
    assert!(rt; refusal(alloc, &long)?.is_none());
    let longer = nested(alloc, 255, b"a", b"b")?;
    assert!(rt; refusal(alloc, &longer)? == Some((ReadKind::BadToken, 0)));
    let longest = nested(alloc, 1_048_575, b" ", b"t")?;
    assert!(rt; refusal(alloc, &longest)?.is_none());
    let too_long = nested(alloc, 1_048_576, b" ", b"t")?;
    assert!(rt; refusal(alloc, &too_long)? == Some((ReadKind::TooLong, 1_048_576)));
    Ok(())
}
