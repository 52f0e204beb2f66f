//! The form that a macro form gives.

ghost use Rattle.std.specs.Prelude.{◌≡◌, IfOk, IsSome, None, Option, Some, map};
ghost use Rattle.std.specs.Option.{option_map};
ghost use Rattle.lisp_base.specs.Sort.{nil};
ghost use Rattle.lisp_base.specs.declared.values.Place.{Place as PlaceOf};
ghost use Rattle.lisp_forms.specs.Building.{built};
ghost use Rattle.lisp_forms.specs.Growth.{Grows};
ghost use Rattle.lisp_forms.specs.Trees.{tree_of};
ghost use Rattle.std_macros.specs.Expanding.{KeepsSymbols, arguments_row, bad, built_around, expanded, expanded_form, fresh_symbols as fresh_symbols_of, full, gives, macro_of_form as macro_of_the_form, macro_of_symbol as macro_of_the_symbol, rest_of as rest_of_list, row};
ghost use Rattle.std_macros.specs.Rules.{expansion_of};

use crate::bindings::{leave, prog, prog1, prog2, psetq};
use crate::cases::{Choice, case, exhaustive};
use crate::conditionals::{and, cond, or, unless, when};
use crate::loops::{Order, dolist, dotimes, repeat_always, repeat_until};
use crate::macros::{Macro, macro_of};
use crate::places::{change, pop, push, setf};
use crate::quasiquotes::quasiquote;
use crate::rule::Rule;
use crate::values::{bind, lambda, list_values, nth_value, set};
use crate::words::Word;
use lisp_base::{Heap, NIL, Place, SymFault, SymTab, Val, Vals};
use lisp_forms::{Template, build, cons_of, elements, place_of_form};
use std::alloc::{AllocError, Global};

/// Why a macro form gives no form.
#[derive(Clone, Copy, PartialEq, Eq, Debug)]
pub enum MacroFault {
    /// The form is outside its macro's syntax. Its place: None for a cons that a macro made.
    BadForm { place: Option<Place> },
    /// A fresh symbol is needed, and 65,536 symbols are there.
    TooManySymbols,
    /// Want of memory.
    Memory,
}

impl From<AllocError> for MacroFault {
    ghost use Rattle.std_macros.specs.declared.expand.MacroFault.TheVariants.{Memory};

    ghost from_gives = { λ _ fault. fault ≡ Memory };

    fn from(_error: AllocError) -> Self {
        MacroFault::Memory
    }
}

/// The macro that a value names, where it is a symbol.
fn macro_of_symbol(name: Val) -> Option<Macro>
    ensures { result ≡ macro_of_the_symbol name }
{
    match name {
        Val::Sym(id) => macro_of(id),
        Val::Int(_) | Val::Char(_) | Val::Ref(_) => None,
    }
}

/// The built-in macro that a form's operator names.
pub fn macro_of_form(heap: &Heap, form: Val) -> Option<Macro>
    ensures { result ≡ macro_of_the_form heap.now form }
{
    match cons_of(heap, form) {
        Some((operator, _)) => macro_of_symbol(operator),
        None => None,
    }
}

/// All but the first element of a list.
fn rest_of(heap: &Heap, list: Val) -> Val
    ensures { result ≡ rest_of_list heap.now list }
{
    match cons_of(heap, list) {
        Some((_, rest)) => rest,
        None => Val::Sym(NIL),
    }
}

/// What a macro makes of its arguments; None exactly where they are outside its syntax. `rest` is
/// the list of all but the first.
fn rule_of(
    alloc: Global,
    name: Macro,
    heap: &Heap,
    rest: Val,
    arguments: &[Val],
) -> Result<Option<Rule>, AllocError>
    ensures { IfOk result (λ found. option_map expansion_of found ≡ row name heap.now rest arguments.now) }
{
    match name {
        Macro::And => and(alloc, rest, arguments),
        Macro::Or => or(alloc, rest, arguments),
        Macro::Cond => cond(alloc, heap, rest, arguments),
        Macro::When => when(alloc, arguments),
        Macro::Unless => unless(alloc, arguments),
        Macro::Case => case(alloc, Choice::ByKey, heap, arguments),
        Macro::Ecase => exhaustive(alloc, Choice::ByKey, heap, arguments),
        Macro::Typecase => case(alloc, Choice::ByType, heap, arguments),
        Macro::Etypecase => exhaustive(alloc, Choice::ByType, heap, arguments),
        Macro::Loop => repeat_always(alloc, heap, arguments),
        Macro::Do => repeat_until(alloc, Order::Together, heap, arguments),
        Macro::DoInOrder => repeat_until(alloc, Order::InOrder, heap, arguments),
        Macro::Dotimes => dotimes(alloc, heap, arguments),
        Macro::Dolist => dolist(alloc, heap, arguments),
        Macro::Return => leave(alloc, arguments),
        Macro::Prog => prog(alloc, Order::Together, heap, arguments),
        Macro::ProgInOrder => prog(alloc, Order::InOrder, heap, arguments),
        Macro::Prog1 => prog1(alloc, arguments),
        Macro::Prog2 => prog2(alloc, arguments),
        Macro::Psetq => psetq(alloc, arguments),
        Macro::Setf => setf(alloc, heap, arguments),
        Macro::Incf => change(alloc, Word::Add, heap, arguments),
        Macro::Decf => change(alloc, Word::Subtract, heap, arguments),
        Macro::Push => push(alloc, heap, arguments),
        Macro::Pop => pop(alloc, heap, arguments),
        Macro::MultipleValueBind => bind(alloc, heap, arguments),
        Macro::MultipleValueList => list_values(alloc, arguments),
        Macro::MultipleValueSetq => set(alloc, heap, arguments),
        Macro::NthValue => nth_value(alloc, arguments),
        Macro::Lambda => lambda(alloc, arguments),
        Macro::Quasiquote => quasiquote(alloc, heap, arguments),
    }
}

/// What a macro makes of a list of arguments; None exactly where it is no proper list, or they are
/// outside the macro's syntax.
#[tactic(auto, unfolding(crate::specs::Expanding::arguments_row))]
fn rule_of_list(
    alloc: Global,
    name: Macro,
    heap: &Heap,
    arguments: Val,
) -> Result<Option<Rule>, AllocError>
    ensures { IfOk result (λ found. option_map expansion_of found ≡ arguments_row name heap.now arguments) }
{
    match elements(alloc, heap, arguments)? {
        Some(items) => rule_of(alloc, name, heap, rest_of(heap, arguments), &items),
        None => Ok(None),
    }
}

/// So many fresh symbols.
fn fresh_symbols(alloc: Global, symbols: &mut SymTab, count: usize) -> Result<Vals, SymFault>
    ensures ok { IfOk result (λ made. fresh_symbols_of count symbols.old ≡ Some (made.items, symbols.new)) }
    ensures too_many { result ≡ Err SymFault.TooMany → fresh_symbols_of count symbols.old ≡ None }
    ensures kept { KeepsSymbols symbols.old symbols.new }
{
    let mut made = Vec::new(alloc);
    for _number in 0..count {
        match symbols.fresh() {
            Ok(id) => made.push(Val::Sym(id))?,
            Err(fault) => return Err(fault),
        }
    }
    Ok(made)
}

/// The forms around a form.
fn build_around(
    alloc: Global,
    heap: &mut Heap,
    around: &[Template],
    symbols: &[Val],
    first: Val,
) -> Result<Val, AllocError>
    ensures ok { IfOk result (λ made. built_around symbols.now (map tree_of around.now) (first, heap.old) ≡ (made, heap.new)) }
    ensures grown { Grows heap.old heap.new }
{
    let mut form = first;
    for template in around {
        form = build(alloc, heap, template, symbols, form)?;
    }
    Ok(form)
}

/// The form of a rule, with its fresh symbols.
fn build_rule(
    alloc: Global,
    heap: &mut Heap,
    rule: &Rule,
    symbols: &[Val],
) -> Result<Val, AllocError>
    ensures ok { IfOk result (λ made. built_around symbols.now (expansion_of rule.now).around (built symbols.now nil (expansion_of rule.now).first heap.old) ≡ (made, heap.new)) }
    ensures grown { Grows heap.old heap.new }
{
    let first = build(alloc, heap, &rule.first, symbols, Val::Sym(NIL))?;
    build_around(alloc, heap, &rule.around, symbols, first)
}

/// The form that a form of this macro gives.
fn expand(
    alloc: Global,
    name: Macro,
    form: Val,
    symbols: &mut SymTab,
    heap: &mut Heap,
) -> Result<Val, MacroFault>
    ensures ok { IfOk result (λ made. expanded name symbols.old heap.old form ≡ gives made symbols.new heap.new) }
    ensures bad { (place : Option PlaceOf) → result ≡ Err (MacroFault.BadForm place) → expanded name symbols.old heap.old form ≡ bad place }
    ensures full { result ≡ Err MacroFault.TooManySymbols → expanded name symbols.old heap.old form ≡ full }
    ensures symbols { KeepsSymbols symbols.old symbols.new }
    ensures heap { Grows heap.old heap.new }
{
    let arguments = rest_of(heap, form);
    let Some(rule) = rule_of_list(alloc, name, heap, arguments)? else {
        let place = place_of_form(heap, form);
        return Err(MacroFault::BadForm { place });
    };
    let fresh = match fresh_symbols(alloc, symbols, rule.fresh) {
        Ok(fresh) => fresh,
        Err(SymFault::TooMany) => return Err(MacroFault::TooManySymbols),
        Err(SymFault::Memory) => return Err(MacroFault::Memory),
    };
    match build_rule(alloc, heap, &rule, &fresh) {
        Ok(made) => Ok(made),
        Err(_) => Err(MacroFault::Memory),
    }
}

/// The form that a macro form gives. Its operator is a built-in macro.
///
/// # Errors
/// `BadForm` with the form's place exactly where it is outside its macro's syntax. Else
/// `TooManySymbols` exactly where the macro needs more fresh symbols than the table has room for.
/// Want of memory. Symbols and objects that were there stay as they were, also after a refusal.
#[tactic(auto, unfolding(crate::specs::Expanding::expanded_form))]
pub fn builtin(
    alloc: Global,
    form: Val,
    symbols: &mut SymTab,
    heap: &mut Heap,
) -> Result<Val, MacroFault>
    requires { IsSome (macro_of_the_form heap.old form) }
    ensures ok { IfOk result (λ made. expanded_form symbols.old heap.old form ≡ gives made symbols.new heap.new) }
    ensures bad { (place : Option PlaceOf) → result ≡ Err (MacroFault.BadForm place) → expanded_form symbols.old heap.old form ≡ bad place }
    ensures full { result ≡ Err MacroFault.TooManySymbols → expanded_form symbols.old heap.old form ≡ full }
    ensures symbols { KeepsSymbols symbols.old symbols.new }
    ensures heap { Grows heap.old heap.new }
{
    match macro_of_form(heap, form) {
        Some(name) => expand(alloc, name, form, symbols, heap),
        None => unreachable!(),
    }
}
