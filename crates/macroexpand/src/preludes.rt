//! The functions of the prelude, read and expanded before the forms of a file.

ghost use Rattle.std.specs.Prelude.{◌≡◌, ◌||◌, All, IfErr, IfOk, [], map};
ghost use Rattle.closed_copies.specs.Copies.{closed_copies};
ghost use Rattle.core_form.specs.Reading.{core_of};
ghost use Rattle.expansion.specs.Bindings.{is_among};
ghost use Rattle.expansion.specs.Scopes as scopes;
ghost use Rattle.form_expander.specs.Keeping.{Keeps};
ghost use Rattle.form_expander.specs.Outcomes.{Follows};
ghost use Rattle.form_expander.specs.Reading.{scope_of, world_of};
ghost use Rattle.file_expansion.specs.Files as plain;
ghost use Rattle.macroexpand.specs.Going.{helper_from, helpers_from, names_from};
ghost use Rattle.macroexpand.specs.Preludes.{IsFirst, IsSoundHelper, IsSoundPrelude, MakesPrelude, ReadsPrelude, RefusesPrelude, RefusesReading, refused_prelude, stock_of};
ghost use Rattle.file_expansion.specs.Laws.{IsSoundWorld, IsThere};

use crate::shapes::is_named;
use crate::trees::top_tree;
use declarations::FIRST_POLICY;
use expansion::ExpandKind;
use file_expansion::{preludes_define, texts_are_there, trees_are_lawful};
use form_expander::{Expander, Fault, Scope, World};
use lisp_base::base_symbols::{DEFUN, FUNCALL, FUNCTION, LAMBDA};
use lisp_base::{Heap, Place, SymId, Val};
use lisp_forms::cons_of;
use lisp_reader::{Forms, ReadFault, ReadKind, TopRead, read_file};
use prelude::prelude_text;
use program_size::PreludeFunction;
use std::alloc::Global;

/// How many forms without a node may follow one another.
pub(crate) const MOST_CHAIN: u32 = 1000;

/// A scope in which no name has a meaning of its own.
pub(crate) fn empty_scope(alloc: Global, place: Place, is_fixed: bool) -> Scope
    ensures { scope_of result ≡ scopes.empty_scope place is_fixed FIRST_POLICY }
{
    Scope {
        place,
        is_fixed,
        variables: Vec::new(alloc),
        checks: Vec::new(alloc),
        functions: Vec::new(alloc),
        blocks: Vec::new(alloc),
        tags: Vec::new(alloc),
        policy: FIRST_POLICY,
    }
}

/// The symbol that a form of the prelude gives a function: the one after DEFUN.
fn helper_name(heap: &Heap, form: Val) -> Option<SymId>
    ensures { result ≡ plain.helper_name heap.now form }
{
    let (operator, rest) = cons_of(heap, form)?;
    if !is_named(operator, DEFUN) {
        return None;
    }
    let (name, _) = cons_of(heap, rest)?;
    match name {
        Val::Sym(symbol) => Some(symbol),
        Val::Int(_) | Val::Char(_) | Val::Ref(_) => None,
    }
}

/// Whether one of these functions has this name.
fn is_defined(prelude: &[PreludeFunction], name: SymId) -> bool
    ensures { result ≡ is_among (names_from prelude.now) name }
{
    prelude.iter().any(|function| name.0 == function.name.0)
}

/// Whether no form of the prelude may define this symbol: the functions of the prelude are to have
/// the operators FUNCALL, LAMBDA and FUNCTION as they are.
fn is_reserved(name: SymId) -> bool
    ensures { result ≡ plain.is_reserved name }
{
    FUNCALL.0 == name.0 || LAMBDA.0 == name.0 || FUNCTION.0 == name.0
}

/// Whether a further form of the prelude may not define this symbol.
fn is_refused(prelude: &[PreludeFunction], name: SymId) -> bool
    ensures { result ≡ (is_among (names_from prelude.now) name || plain.is_reserved name) }
{
    is_defined(prelude, name) || is_reserved(name)
}

/// The function that a form of the prelude defines, which is none of those so far.
fn expand_helper(
    expander: &mut Expander,
    alloc: Global,
    prelude: &[PreludeFunction],
    form: Val,
) -> Result<PreludeFunction, Fault>
    requires world { IsSoundWorld (world_of expander.old.world) }
    requires there { IsThere (world_of expander.old.world) form }
    ensures follows { Follows helper_from (plain.helper_of (helpers_from prelude.now) form (world_of expander.old.world)) result (world_of expander.new.world) }
    ensures measured { IfOk result (λ f. f.copies ≡ closed_copies (core_of f.form.core)) }
    ensures sound { IfOk result (IsSoundHelper (names_from prelude.now) (world_of expander.old.world) (world_of expander.new.world)) }
    ensures keeps { Keeps expander.old.world expander.new.world }
{
    trees_are_lawful();
    preludes_define();
    let Some(name) = helper_name(&expander.world.heap, form) else {
        return Err(Fault::Refused {
            kind: ExpandKind::BadForm,
            place: Place::Prelude { name: DEFUN },
        });
    };
    let place = Place::Prelude { name };
    if is_refused(prelude, name) {
        return Err(Fault::Refused {
            kind: ExpandKind::BadForm,
            place,
        });
    }
    expander.scope = empty_scope(alloc, place, true);
    let tree = top_tree(expander, alloc, MOST_CHAIN, form)?;
    Ok(PreludeFunction {
        name,
        form: tree.form,
        copies: tree.copies,
    })
}

/// The functions that the forms of the prelude define.
fn expand_helpers(
    expander: &mut Expander,
    alloc: Global,
    forms: &[TopRead],
) -> Result<Vec<PreludeFunction>, Fault>
    requires world { IsSoundWorld (world_of expander.old.world) }
    requires there { All (λ f. IsThere (world_of expander.old.world) f.form) forms.now }
    ensures follows { Follows (λ made. helpers_from made.items) (plain.helpers [] forms.now (world_of expander.old.world)) result (world_of expander.new.world) }
    ensures sound { IfOk result (λ made. IsSoundPrelude (world_of expander.old.world) (world_of expander.new.world) made.items) }
    ensures keeps { Keeps expander.old.world expander.new.world }
{
    let mut prelude = Vec::new(alloc);
    for read in forms {
        let function = expand_helper(expander, alloc, &prelude, read.form)?;
        prelude.push(function)?;
    }
    Ok(prelude)
}

/// The place of a form in the file.
pub(crate) fn file_place(offset: u32) -> Place
    ensures { result ≡ plain.file_place offset }
{
    Place::File { offset, tail: 0 }
}

/// Why a file is refused whose prelude is refused: at its first form where symbols have no room,
/// else as a bad form at its start.
fn prelude_fault(is_full: bool, first: Place) -> Fault
    ensures { result ≡ refused_prelude is_full first }
{
    if is_full {
        Fault::Refused {
            kind: ExpandKind::TooManySymbols,
            place: first,
        }
    } else {
        Fault::Refused {
            kind: ExpandKind::BadForm,
            place: file_place(0),
        }
    }
}

/// Whether symbols have no room for what is read.
fn is_unread(kind: ReadKind) -> bool
    ensures { result ≡ plain.is_unread kind }
{
    matches!(kind, ReadKind::TooManySymbols)
}

/// Whether symbols have no room for what is expanded.
fn is_full(kind: ExpandKind) -> bool
    ensures { result ≡ plain.is_full kind }
{
    matches!(kind, ExpandKind::TooManySymbols)
}

/// The forms of the prelude, read with the symbols and objects of the file.
fn read_prelude(world: &mut World, alloc: Global, first: Place) -> Result<Forms, Fault>
    requires fresh { IsFirst world.old }
    requires begins { IsSoundWorld (world_of world.old) }
    ensures read { IfOk result (λ forms. ReadsPrelude world.old world.new forms.items) }
    ensures refused { IfErr result (RefusesReading (stock_of world.old) first) }
    ensures keeps { Keeps world.old world.new }
{
    texts_are_there();
    let text = prelude_text().as_bytes();
    match read_file(alloc, text, &mut world.symbols, &mut world.heap) {
        Ok(forms) => Ok(forms),
        Err(ReadFault::Refused { kind, .. }) => Err(prelude_fault(is_unread(kind), first)),
        Err(ReadFault::Memory) => Err(Fault::Memory),
    }
}

/// The functions of the prelude, read and expanded before the forms of a file, the first of which
/// has this place.
///
/// # Errors
/// `TooManySymbols` at this place, where symbols have no room; want of memory. No other refusal
/// comes: it would be a bad form at the start of the file.
pub(crate) fn expand_prelude(
    expander: &mut Expander,
    alloc: Global,
    first: Place,
) -> Result<Vec<PreludeFunction>, Fault>
    requires fresh { IsFirst expander.old.world }
    requires begins { IsSoundWorld (world_of expander.old.world) }
    ensures made { IfOk result (λ made. MakesPrelude expander.old.world expander.new.world made.items) }
    ensures refused { IfErr result (RefusesPrelude (stock_of expander.old.world) first) }
    ensures keeps { Keeps expander.old.world expander.new.world }
{
    let forms = read_prelude(&mut expander.world, alloc, first)?;
    match expand_helpers(expander, alloc, &forms) {
        Ok(prelude) => Ok(prelude),
        Err(Fault::Refused { kind, .. }) => Err(prelude_fault(is_full(kind), first)),
        Err(Fault::Memory) => Err(Fault::Memory),
    }
}
