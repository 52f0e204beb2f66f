// Lambda lists that are read and refused, and the forms of keys. Names of functions stand for variables.
use crate::{Binding, Defaulted, KeyFault, LambdaList, make_key_forms, read_lambda_list};
use lisp_base::base_symbols::{
    AREF, CAR, CDR, CONS, FIRST, HELPER_KEYP, LAMBDA_LIST_AUX, LAMBDA_LIST_KEY,
    LAMBDA_LIST_OPTIONAL, LAMBDA_LIST_REST, NTH, REST,
};
use lisp_base::{Heap, NIL, ObjId, SymId, SymKind, SymTab, T, Val, base_names};
use lisp_forms::{elements, make_list};
use std::alloc::AllocError;
use std::test::*;

fn list(heap: &mut Heap, items: &[Val]) -> Result<Val, AllocError> {
    make_list(heap, items, Val::Sym(NIL))
}

fn is_default(found: Option<&Defaulted>, name: SymId, value: Val, told: Option<SymId>) -> bool {
    match found {
        Some(d) => d.variable == name && d.value == value && d.supplied == told,
        None => false,
    }
}

fn is_expected(found: &LambdaList) -> bool {
    let nil = Val::Sym(NIL);
    let Some(keys) = &found.keys else {
        return false;
    };
    let bound = Binding {
        variable: REST,
        value: Val::Int(3),
    };
    found.required.get(0) == Some(&CAR)
        && is_default(found.optional.get(0), CDR, nil, None)
        && is_default(found.optional.get(1), CONS, Val::Int(1), Some(FIRST))
        && found.rest == Some(NTH)
        && is_default(keys.get(0), AREF, Val::Int(2), None)
        && found.auxiliary.get(0) == Some(&bound)
}

#[test]
fn all_kinds(rt: HostRuntime) -> Result<(), Fail> {
    let alloc = rt.alloc();
    let symbols = SymTab::new(alloc)?;
    let mut heap = Heap::new(alloc);
    let alone = list(&mut heap, &[Val::Sym(CDR)])?;
    let told = list(&mut heap, &[Val::Sym(CONS), Val::Int(1), Val::Sym(FIRST)])?;
    let key = list(&mut heap, &[Val::Sym(AREF), Val::Int(2)])?;
    let bound = list(&mut heap, &[Val::Sym(REST), Val::Int(3)])?;
    let words = [
        Val::Sym(CAR),
        Val::Sym(LAMBDA_LIST_OPTIONAL),
        alone,
        told,
        Val::Sym(LAMBDA_LIST_REST),
        Val::Sym(NTH),
        Val::Sym(LAMBDA_LIST_KEY),
        key,
        Val::Sym(LAMBDA_LIST_AUX),
        bound,
    ];
    let whole = list(&mut heap, &words)?;
    let found = read_lambda_list(alloc, whole, &symbols, &heap)?;
    assert!(rt; found.is_some_and(|found| is_expected(&found)));
    let found = read_lambda_list(alloc, Val::Sym(NIL), &symbols, &heap)?;
    assert!(rt; found.is_some_and(|found| found.required.is_empty() && found.keys.is_none()));
    Ok(())
}

#[test]
fn refusals(rt: HostRuntime) -> Result<(), Fail> {
    let alloc = rt.alloc();
    let mut symbols = SymTab::new(alloc)?;
    let mut heap = Heap::new(alloc);
    let body = symbols.intern("&BODY", SymKind::Plain).expect(&rt, "room");
    let keyword = symbols.intern("KEY", SymKind::Keyword).expect(&rt, "room");
    let a = Val::Sym(CAR);
    let alone = list(&mut heap, &[a])?;
    let rest = Val::Sym(LAMBDA_LIST_REST);
    let refused = [
        list(&mut heap, &[Val::Sym(T)])?,
        list(&mut heap, &[Val::Sym(NIL)])?,
        list(&mut heap, &[Val::Sym(keyword)])?,
        list(&mut heap, &[Val::Sym(body), a])?,
        list(&mut heap, &[rest])?,
        list(&mut heap, &[rest, a, a])?,
        list(&mut heap, &[rest, a, Val::Sym(LAMBDA_LIST_OPTIONAL), a])?,
        list(&mut heap, &[Val::Sym(LAMBDA_LIST_KEY), alone])?,
        make_list(&mut heap, &[a], Val::Int(1))?,
    ];
    for form in &refused {
        assert!(rt; read_lambda_list(alloc, *form, &symbols, &heap)?.is_none());
    }
    Ok(())
}

#[test]
fn forms_of_two_keys(rt: HostRuntime) -> Result<(), Fail> {
    let alloc = rt.alloc();
    let mut symbols = SymTab::new(alloc)?;
    let mut heap = Heap::new(alloc);
    let parameters = [
        Defaulted {
            variable: CAR,
            value: Val::Int(1),
            supplied: Some(CDR),
        },
        Defaulted {
            variable: CONS,
            value: Val::Sym(NIL),
            supplied: None,
        },
    ];
    let made = make_key_forms(alloc, REST, &parameters, &mut symbols, &mut heap).ok();
    let made = made.expect(&rt, "room");
    let first = SymId(base_names().len() as u32);
    assert!(rt; symbols.name(first) == Some("CAR"));
    assert!(rt; symbols.kind(first) == Some(SymKind::Keyword));
    assert!(rt; made.test == Val::Ref(ObjId(6)));
    let test = elements(alloc, &heap, made.test)?;
    assert!(rt; test.is_some_and(|items| items.get(0) == Some(&Val::Sym(HELPER_KEYP))));
    let values = [
        Val::Ref(ObjId(22)),
        Val::Ref(ObjId(31)),
        Val::Ref(ObjId(47)),
    ];
    let names = [CAR, CDR, CONS];
    for (binding, (name, value)) in made.bindings.iter().zip(names.iter().zip(values.iter())) {
        assert!(rt; binding.variable == *name && binding.value == *value);
    }
    assert!(rt; made.bindings.len() == 3 && made.refusal == Val::Ref(ObjId(52)));
    Ok(())
}

#[test]
fn a_full_table(rt: HostRuntime) -> Result<(), Fail> {
    let alloc = rt.alloc();
    let mut symbols = SymTab::new(alloc)?;
    let mut heap = Heap::new(alloc);
    for _ in base_names().len()..65_536 {
        assert!(rt; symbols.fresh().is_ok());
    }
    let parameters = [Defaulted {
        variable: CAR,
        value: Val::Int(1),
        supplied: None,
    }];
    let made = make_key_forms(alloc, REST, &parameters, &mut symbols, &mut heap);
    assert!(rt; matches!(made, Err(KeyFault::TooManySymbols)));
    Ok(())
}
