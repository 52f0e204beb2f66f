// Specifiers with their texts and sizes, forms that are none, and values that types hold.
use crate::{TypeFault, has, parse_type, spec_size, spec_text};
use lisp_base::{Heap, NIL, Obj, SymKind, SymTab, Val};
use std::alloc::Global;
use std::process::Abort;
use std::test::Fail;

// Forms in a heap, with the symbols of their names.
#[derive(Drop)]
struct Page {
    symbols: SymTab,
    heap: Heap,
}

impl Page {
    fn word(&mut self, name: &str) -> Result<Val, Fail> {
        Ok(Val::Sym(self.symbols.intern(name, SymKind::Plain)?))
    }

    fn cons(&mut self, car: Val, cdr: Val) -> Result<Val, Fail> {
        let cell = Obj::Cons {
            car,
            cdr,
            place: None,
        };
        Ok(Val::Ref(self.heap.add(cell)?))
    }

    // A list that begins with a word.
    fn call(&mut self, name: &str, operands: &[Val]) -> Result<Val, Fail> {
        let mut list = Val::Sym(NIL);
        for operand in operands.iter().rev() {
            list = self.cons(*operand, list)?;
        }
        let head = self.word(name)?;
        self.cons(head, list)
    }

    fn is_bad(&self, alloc: Global, form: Val) -> bool {
        match parse_type(alloc, form, &self.symbols, &self.heap) {
            Err(TypeFault::BadType) => true,
            Err(TypeFault::Memory) | Ok(_) => false,
        }
    }
}

fn new_page(alloc: Global) -> Result<Page, Fail> {
    Ok(Page {
        symbols: SymTab::new(alloc)?,
        heap: Heap::new(alloc),
    })
}

// Asserts what a form's specifier has as its text and its size.
fn expect(
    rt: &impl Abort,
    alloc: Global,
    page: &Page,
    form: Val,
    text: &str,
    size: u32,
) -> Result<(), Fail> {
    let spec = parse_type(alloc, form, &page.symbols, &page.heap)?;
    assert_eq!(rt; spec_text(alloc, &spec, &page.symbols)?.as_str(), text);
    assert_eq!(rt; spec_size(&spec), size);
    Ok(())
}

#[test]
fn ranges(rt: HostRuntime) -> Result<(), Fail> {
    let alloc = rt.alloc();
    let mut page = new_page(alloc)?;
    let form = page.call("INTEGER", &[Val::Int(0)])?;
    expect(&rt, alloc, &page, form, "(INTEGER 0 *)", 1)?;
    let star = page.word("*")?;
    let past = page.cons(Val::Int(5), Val::Sym(NIL))?;
    let form = page.call("INTEGER", &[star, past])?;
    expect(&rt, alloc, &page, form, "(INTEGER * (5))", 1)
}

#[test]
fn items(rt: HostRuntime) -> Result<(), Fail> {
    let alloc = rt.alloc();
    let mut page = new_page(alloc)?;
    let symbol = page.word("A")?;
    let form = page.call("MEMBER", &[Val::Int(-3), symbol, Val::Char(32)])?;
    expect(&rt, alloc, &page, form, "(MEMBER -3 A #\\Space)", 4)
}

#[test]
fn combined(rt: HostRuntime) -> Result<(), Fail> {
    let alloc = rt.alloc();
    let mut page = new_page(alloc)?;
    let byte = page.word("UNSIGNED-BYTE")?;
    let not = page.call("NOT", &[byte])?;
    let none = page.call("AND", &[])?;
    let form = page.call("OR", &[not, none])?;
    expect(&rt, alloc, &page, form, "(OR (NOT UNSIGNED-BYTE) (AND))", 4)
}

#[test]
fn no_specifiers(rt: HostRuntime) -> Result<(), Fail> {
    let alloc = rt.alloc();
    let mut page = new_page(alloc)?;
    let form = page.call("MOD", &[Val::Int(0)])?;
    assert!(rt; page.is_bad(alloc, form));
    let form = page.call("VALUES", &[])?;
    assert!(rt; page.is_bad(alloc, form));
    let form = page.call("UNSIGNED-BYTE", &[Val::Int(128)])?;
    assert!(rt; page.is_bad(alloc, form));
    Ok(())
}

// Puts a list in the place of its own end.
fn close(page: &mut Page, list: Val) {
    if let Val::Ref(id) = list {
        let cell = Obj::Cons {
            car: Val::Int(1),
            cdr: list,
            place: None,
        };
        let _ = page.heap.change(id, cell);
    }
}

#[test]
fn no_lists(rt: HostRuntime) -> Result<(), Fail> {
    let alloc = rt.alloc();
    let mut page = new_page(alloc)?;
    let items = page.cons(Val::Int(1), Val::Int(2))?;
    let head = page.word("MEMBER")?;
    let form = page.cons(head, items)?;
    assert!(rt; page.is_bad(alloc, form));
    close(&mut page, items);
    assert!(rt; page.is_bad(alloc, form));
    Ok(())
}

#[test]
fn members(rt: HostRuntime) -> Result<(), Fail> {
    let alloc = rt.alloc();
    let mut page = new_page(alloc)?;
    let form = page.call("MOD", &[Val::Int(5)])?;
    let spec = parse_type(alloc, form, &page.symbols, &page.heap)?;
    assert!(rt; has(&spec, &page.symbols, &page.heap, Val::Int(4)));
    assert!(rt; !has(&spec, &page.symbols, &page.heap, Val::Int(5)));
    Ok(())
}
