// Trees with their texts, made with ample memory.
use core_form::{
    Binding, Core, Definition, Form, Item, Lambda, Optional, Parameter, TopForm, Variable,
    forms_text,
};
use lisp_base::{
    Heap, NIL, Obj, ObjId, Place, Primitive, SymId, SymKind, SymTab, T, TypeName, TypeSpec, Val,
};
use std::alloc::Global;
use std::process::Abort;
use std::test::Fail;

const PLACE: Place = Place::File { offset: 0, tail: 0 };

fn node(form: Form) -> Core {
    Core { place: PLACE, form }
}

fn boxed(alloc: Global, form: Form) -> Result<Box<Core>, Fail> {
    Ok(Box::new(alloc, node(form))?)
}

fn constant() -> Core {
    node(Form::Quote(Val::Int(1)))
}

fn one(alloc: Global) -> Result<Box<Core>, Fail> {
    boxed(alloc, Form::Quote(Val::Int(1)))
}

fn local(number: u32) -> Core {
    node(Form::Local(number))
}

fn plain(alloc: Global, number: u32, name: SymId) -> Parameter {
    Parameter {
        variable: Variable::Lexical { number, name },
        types: Vec::new(alloc),
    }
}

// Asserts what the text of a form is, with its newline.
fn expect(
    rt: &(impl Abort + AllocGlobal),
    heap: &Heap,
    symbols: &SymTab,
    form: Form,
    expected: &str,
) -> Result<(), Fail> {
    let alloc = rt.alloc();
    let top = TopForm {
        place: PLACE,
        core: node(form),
        nodes: 1,
    };
    let forms = vec![in alloc; top]?;
    let text = forms_text(alloc, &forms, heap, symbols)?;
    assert_eq!(rt; text.as_str(), expected);
    Ok(())
}

// The same without data.
fn shows(
    rt: &(impl Abort + AllocGlobal),
    symbols: &SymTab,
    form: Form,
    expected: &str,
) -> Result<(), Fail> {
    let heap = Heap::new(rt.alloc());
    expect(rt, &heap, symbols, form, expected)
}

fn word(symbols: &mut SymTab, name: &str) -> Result<SymId, Fail> {
    Ok(symbols.intern(name, SymKind::Plain)?)
}

#[test]
fn constants_and_choices(rt: HostRuntime) -> Result<(), Fail> {
    let alloc = rt.alloc();
    let symbols = SymTab::new(alloc)?;
    shows(&rt, &symbols, Form::Quote(Val::Int(1)), "(quote 1)\n")?;
    let test = boxed(alloc, Form::Quote(Val::Sym(T)))?;
    let no = boxed(alloc, Form::Quote(Val::Sym(NIL)))?;
    let form = Form::If(test, one(alloc)?, no);
    shows(
        &rt,
        &symbols,
        form,
        "(if (quote T) (quote 1) (quote NIL))\n",
    )?;
    let parts = vec![in alloc;
        node(Form::Quote(Val::Int(-2))),
        node(Form::Quote(Val::Char(32))),
    ]?;
    shows(
        &rt,
        &symbols,
        Form::Progn(parts),
        "(progn (quote -2) (quote #\\Space))\n",
    )?;
    shows(&rt, &symbols, Form::Values(Vec::new(alloc)), "(values)\n")
}

#[test]
fn lexical_variables(rt: HostRuntime) -> Result<(), Fail> {
    let alloc = rt.alloc();
    let mut symbols = SymTab::new(alloc)?;
    let x = word(&mut symbols, "X")?;
    let fresh = symbols.fresh()?;
    let first = Binding {
        parameter: plain(alloc, 1, x),
        value: constant(),
    };
    let second = Binding {
        parameter: plain(alloc, 2, fresh),
        value: constant(),
    };
    let set = Form::SetLocal(2, Box::new(alloc, local(1))?);
    let form = Form::Let(vec![in alloc; first, second]?, boxed(alloc, set)?);
    shows(
        &rt,
        &symbols,
        form,
        "(let ((X.1 (quote 1)) (G1.2 (quote 1))) (set G1.2 X.1))\n",
    )
}

#[test]
fn special_variables_and_globals(rt: HostRuntime) -> Result<(), Fail> {
    let alloc = rt.alloc();
    let mut symbols = SymTab::new(alloc)?;
    let x = word(&mut symbols, "X")?;
    let k = symbols.intern("K", SymKind::Keyword)?;
    let parameter = Parameter {
        variable: Variable::Special(x),
        types: Vec::new(alloc),
    };
    let bindings = vec![in alloc;
        Binding {
            parameter,
            value: constant()
        },
    ]?;
    let form = Form::Let(bindings, boxed(alloc, Form::Global(x))?);
    shows(
        &rt,
        &symbols,
        form,
        "(let (((special X) (quote 1))) (global X))\n",
    )?;
    let form = Form::SetGlobal(x, boxed(alloc, Form::FunGlobal(k))?);
    shows(&rt, &symbols, form, "(setglobal X (funglobal :K))\n")?;
    let form = Form::SetFun(x, one(alloc)?);
    shows(&rt, &symbols, form, "(setfun X (quote 1))\n")?;
    let form = Form::CallGlobal(x, vec![in alloc; constant()]?);
    shows(&rt, &symbols, form, "(callglobal X (quote 1))\n")
}

#[test]
fn functions(rt: HostRuntime) -> Result<(), Fail> {
    let alloc = rt.alloc();
    let mut symbols = SymTab::new(alloc)?;
    let x = word(&mut symbols, "X")?;
    let y = word(&mut symbols, "Y")?;
    let checks = vec![in alloc; TypeSpec::Named(TypeName::Integer), TypeSpec::Mod(5)]?;
    let checked = Parameter {
        variable: Variable::Lexical { number: 1, name: x },
        types: checks,
    };
    let bare = Optional {
        parameter: plain(alloc, 2, y),
        default: local(1),
        supplied: None,
    };
    let full = Optional {
        parameter: plain(alloc, 3, y),
        default: local(2),
        supplied: Some(plain(alloc, 4, x)),
    };
    let lambda = Lambda {
        number: 0,
        required: vec![in alloc; checked]?,
        optional: vec![in alloc; bare, full]?,
        rest: Some(plain(alloc, 5, y)),
        body: Box::new(alloc, local(4))?,
    };
    let text =
        "(lambda ((check (MOD 5) (check INTEGER X.1)) (opt Y.2 X.1) (opt Y.3 Y.2 X.4) (rest Y.5)) X.4)\n";
    shows(&rt, &symbols, Form::Lambda(lambda), text)
}

#[test]
fn local_functions(rt: HostRuntime) -> Result<(), Fail> {
    let alloc = rt.alloc();
    let mut symbols = SymTab::new(alloc)?;
    let f = word(&mut symbols, "F")?;
    let lambda = Lambda {
        number: 0,
        required: Vec::new(alloc),
        optional: Vec::new(alloc),
        rest: None,
        body: boxed(alloc, Form::FunLocal(1))?,
    };
    let definition = Definition {
        place: PLACE,
        number: 1,
        name: f,
        lambda,
    };
    let body = Form::CallLocal(1, vec![in alloc; constant()]?);
    let form = Form::Labels(vec![in alloc; definition]?, boxed(alloc, body)?);
    shows(
        &rt,
        &symbols,
        form,
        "(labels ((F.1 (lambda () (fun F.1)))) (call F.1 (quote 1)))\n",
    )
}

#[test]
fn calls_and_types(rt: HostRuntime) -> Result<(), Fail> {
    let alloc = rt.alloc();
    let symbols = SymTab::new(alloc)?;
    let form = Form::Funcall(one(alloc)?, vec![in alloc; constant()]?);
    shows(&rt, &symbols, form, "(funcall (quote 1) (quote 1))\n")?;
    let form = Form::Apply(one(alloc)?, vec![in alloc; constant()]?);
    shows(&rt, &symbols, form, "(apply (quote 1) (quote 1))\n")?;
    let form = Form::MvCall(one(alloc)?, Vec::new(alloc));
    shows(&rt, &symbols, form, "(mvcall (quote 1))\n")?;
    let form = Form::Primitive(Primitive::Car, vec![in alloc; constant()]?);
    shows(&rt, &symbols, form, "(CAR (quote 1))\n")?;
    let form = Form::Is(TypeSpec::Mod(5), one(alloc)?);
    shows(&rt, &symbols, form, "(is (MOD 5) (quote 1))\n")?;
    let form = Form::The(TypeSpec::Named(TypeName::Fixnum), one(alloc)?);
    shows(&rt, &symbols, form, "(the FIXNUM (quote 1))\n")
}

#[test]
fn exits(rt: HostRuntime) -> Result<(), Fail> {
    let alloc = rt.alloc();
    let mut symbols = SymTab::new(alloc)?;
    let b = word(&mut symbols, "B")?;
    let leave = Form::ReturnFrom(1, one(alloc)?);
    let form = Form::Block(1, b, boxed(alloc, leave)?);
    shows(&rt, &symbols, form, "(block B.1 (return B.1 (quote 1)))\n")?;
    let items = vec![in alloc;
        Item::Tag(1, Val::Sym(b)),
        Item::Step(node(Form::Go(2))),
        Item::Tag(2, Val::Int(10)),
    ]?;
    shows(
        &rt,
        &symbols,
        Form::Tagbody(items),
        "(tagbody B.1 (go 10.2) 10.2)\n",
    )?;
    let form = Form::Catch(one(alloc)?, one(alloc)?);
    shows(&rt, &symbols, form, "(catch (quote 1) (quote 1))\n")?;
    let form = Form::Throw(one(alloc)?, one(alloc)?);
    shows(&rt, &symbols, form, "(throw (quote 1) (quote 1))\n")?;
    let form = Form::Unwind(one(alloc)?, one(alloc)?);
    shows(&rt, &symbols, form, "(unwind (quote 1) (quote 1))\n")?;
    let form = Form::MvProg1(one(alloc)?, one(alloc)?);
    shows(&rt, &symbols, form, "(mvprog1 (quote 1) (quote 1))\n")
}

#[test]
fn circular_constants(rt: HostRuntime) -> Result<(), Fail> {
    let alloc = rt.alloc();
    let symbols = SymTab::new(alloc)?;
    let mut heap = Heap::new(alloc);
    let cell = Obj::Cons {
        car: Val::Ref(ObjId(0)),
        cdr: Val::Sym(NIL),
        place: None,
    };
    let round = heap.add(cell)?;
    let text = "(quote ((((((((((((((((((((#)))))))))))))))))))))\n";
    expect(&rt, &heap, &symbols, Form::Quote(Val::Ref(round)), text)
}

#[test]
fn a_line_for_each_form(rt: HostRuntime) -> Result<(), Fail> {
    let alloc = rt.alloc();
    let symbols = SymTab::new(alloc)?;
    let heap = Heap::new(alloc);
    let first = TopForm {
        place: PLACE,
        core: constant(),
        nodes: 1,
    };
    let second = TopForm {
        place: PLACE,
        core: constant(),
        nodes: 1,
    };
    let forms = vec![in alloc; first, second]?;
    let text = forms_text(alloc, &forms, &heap, &symbols)?;
    assert_eq!(&rt; text.as_str(), "(quote 1)\n(quote 1)\n");
    Ok(())
}
