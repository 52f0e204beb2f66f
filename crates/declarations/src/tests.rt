// What declarations say, and which are refused.
use crate::{
    DeclarationFault, FIRST_POLICY, Policy, Typed, body_of, read_declarations, read_specifiers,
};
use lisp_base::base_symbols::{
    CAR, CDR, DECLARE, IGNORE, INTEGER, LIST, OPTIMIZE, SAFETY, SPECIAL, SPEED, TYPE,
};
use lisp_base::{Heap, NIL, Obj, SymId, SymTab, TypeName, TypeSpec, Val};
use lisp_forms::make_list;
use std::alloc::{AllocError, Global};
use std::test::*;

fn list(heap: &mut Heap, elements: &[Val]) -> Result<Val, AllocError> {
    make_list(heap, elements, Val::Sym(NIL))
}

fn is_typed(typed: Option<&Typed>, variable: SymId, name: TypeName) -> bool {
    match typed {
        Some(
            Typed {
                variable: found,
                spec: TypeSpec::Named(named),
            },
        ) => *found == variable && *named == name,
        _ => false,
    }
}

// The fault of a declamation of one specifier.
fn fault_of(
    alloc: Global,
    symbols: &SymTab,
    heap: &mut Heap,
    specifier: Val,
) -> Result<Option<DeclarationFault>, AllocError> {
    let specifiers = list(heap, &[specifier])?;
    match read_specifiers(alloc, specifiers, FIRST_POLICY, symbols, heap) {
        Ok(_) => Ok(None),
        Err(fault) => Ok(Some(fault)),
    }
}

#[test]
fn variables_in_order(rt: HostRuntime) -> Result<(), Fail> {
    let alloc = rt.alloc();
    let symbols = SymTab::new(alloc)?;
    let mut heap = Heap::new(alloc);
    let integers = [TYPE, INTEGER, CAR, CDR].map(Val::Sym);
    let integers = list(&mut heap, &integers)?;
    let lists = list(&mut heap, &[Val::Sym(LIST), Val::Sym(CAR)])?;
    let special = list(&mut heap, &[Val::Sym(SPECIAL), Val::Sym(CDR)])?;
    let ignored = list(&mut heap, &[Val::Sym(IGNORE), Val::Int(1)])?;
    let specifiers = list(&mut heap, &[integers, lists, special, ignored])?;
    let declared = read_specifiers(alloc, specifiers, FIRST_POLICY, &symbols, &heap)?;
    assert!(rt; declared.types.len() == 3);
    assert!(rt; is_typed(declared.types.get(0), CAR, TypeName::Integer));
    assert!(rt; is_typed(declared.types.get(1), CDR, TypeName::Integer));
    assert!(rt; is_typed(declared.types.get(2), CAR, TypeName::List));
    assert!(rt; declared.specials.as_slice() == [CDR].as_slice());
    assert!(rt; declared.policy == FIRST_POLICY);
    Ok(())
}

#[test]
fn policies(rt: HostRuntime) -> Result<(), Fail> {
    let alloc = rt.alloc();
    let symbols = SymTab::new(alloc)?;
    let mut heap = Heap::new(alloc);
    let two = list(&mut heap, &[Val::Sym(SAFETY), Val::Int(2)])?;
    let fast = list(&mut heap, &[Val::Sym(OPTIMIZE), Val::Sym(SPEED)])?;
    let safe = list(&mut heap, &[Val::Sym(OPTIMIZE), Val::Sym(SAFETY)])?;
    let less = list(&mut heap, &[Val::Sym(OPTIMIZE), two])?;
    let first = list(&mut heap, &[Val::Sym(DECLARE), fast])?;
    let second = list(&mut heap, &[Val::Sym(DECLARE), less, safe])?;
    let declarations = [first, second];
    let declared = read_declarations(alloc, &declarations, FIRST_POLICY, &symbols, &heap)?;
    let fastest = Policy {
        speed: 3,
        safety: 3,
    };
    assert!(rt; declared.policy == fastest);
    let fault = fault_of(alloc, &symbols, &mut heap, fast)?;
    assert!(rt; fault == Some(DeclarationFault::BadPolicy));
    Ok(())
}

#[test]
fn refusals(rt: HostRuntime) -> Result<(), Fail> {
    let alloc = rt.alloc();
    let symbols = SymTab::new(alloc)?;
    let mut heap = Heap::new(alloc);
    let number = list(&mut heap, &[Val::Sym(SPECIAL), Val::Int(1)])?;
    let fault = fault_of(alloc, &symbols, &mut heap, number)?;
    assert!(rt; fault == Some(DeclarationFault::BadForm));
    let improper = make_list(&mut heap, &[Val::Sym(IGNORE)], Val::Sym(CAR))?;
    let fault = fault_of(alloc, &symbols, &mut heap, improper)?;
    assert!(rt; fault == Some(DeclarationFault::BadForm));
    let unknown = list(&mut heap, &[Val::Sym(CAR), number])?;
    let fault = fault_of(alloc, &symbols, &mut heap, unknown)?;
    assert!(rt; fault == Some(DeclarationFault::BadType));
    Ok(())
}

#[test]
fn bodies(rt: HostRuntime) -> Result<(), Fail> {
    let alloc = rt.alloc();
    let mut heap = Heap::new(alloc);
    let text = Val::Ref(heap.add(Obj::Str(Vec::new(alloc)))?);
    let declaration = list(&mut heap, &[Val::Sym(DECLARE)])?;
    let forms = [text, declaration, text, declaration];
    let body = body_of(&heap, &forms);
    assert!(rt; body.declarations == [declaration].as_slice());
    assert!(rt; body.forms == [text, declaration].as_slice());
    assert!(rt; body_of(&heap, &[text]).forms == [text].as_slice());
    Ok(())
}
