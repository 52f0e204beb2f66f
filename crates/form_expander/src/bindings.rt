//! Which declarations go with which binding, and the sketches of `LET` and `LET*`.

ghost use Rattle.std.specs.Prelude.{◌≡◌, ◌++◌, ◌∷◌, [], IfOk, OnOk, filter, if◌then◌else◌, map, not};
ghost use Rattle.lisp_base.specs.Reading.{spec_of};
ghost use Rattle.declarations.specs.Declarations.{declared_of, typed_of};
ghost use Rattle.expansion.specs.Sketches as plain;
ghost use Rattle.expansion.specs.Bindings.{bound_before as bound_before_of, bound_by as bound_by_of, initials as initials_of, is_among as is_among_of, let_in_order as let_in_order_of, let_sketch as let_sketch_of, names as names_of, nested as nested_of, others as others_of, types_of as types_of_symbol, undeclared as undeclared_of};
ghost use Rattle.form_expander.specs.Reading.{binder_of, initial_of, sketch_of};

use crate::making::{bind, within};
use crate::sketch::{Binder, Initial, Sketch};
use declarations::{Declared, SymIds, Typed, TypedVariables, copy_type};
use lisp_base::{Specs, SymId, Val};
use std::alloc::{AllocError, Global};

/// Whether a symbol stands among these.
pub(crate) fn is_among(symbols: &[SymId], symbol: SymId) -> bool
    ensures { result ≡ is_among_of symbols.now symbol }
{
    symbols.iter().any(|other| symbol.0 == other.0)
}

/// Adds a type that is declared of this variable.
fn add_type(
    alloc: Global,
    symbol: SymId,
    typed: &Typed,
    found: &mut Specs,
) -> Result<(), AllocError>
    ensures { OnOk result (map spec_of found.new.items ≡ map spec_of found.old.items ++ types_of_symbol symbol (typed_of typed.now ∷ [])) }
{
    if symbol.0 == typed.variable.0 {
        found.push(copy_type(alloc, &typed.spec)?)?;
    }
    Ok(())
}

/// The types that are declared of a variable, in their order.
pub(crate) fn types_of(alloc: Global, symbol: SymId, types: &[Typed]) -> Result<Specs, AllocError>
    ensures { IfOk result (λ found. map spec_of found.items ≡ types_of_symbol symbol (map typed_of types.now)) }
{
    let mut found = Vec::new(alloc);
    for typed in types {
        add_type(alloc, symbol, typed, &mut found)?;
    }
    Ok(found)
}

/// A variable with what is declared of it.
fn bound_by(alloc: Global, declared: &Declared, symbol: SymId) -> Result<Binder, AllocError>
    ensures { IfOk result (λ made. binder_of made ≡ bound_by_of (declared_of declared.now) symbol) }
{
    Ok(Binder {
        variable: symbol,
        types: types_of(alloc, symbol, &declared.types)?,
        special: is_among(&declared.specials, symbol),
    })
}

/// A variable of which nothing is declared.
fn undeclared(alloc: Global, symbol: SymId) -> Binder
    ensures { binder_of result ≡ undeclared_of symbol }
{
    Binder {
        variable: symbol,
        types: Vec::new(alloc),
        special: false,
    }
}

/// A variable with what is declared of it, where none of the later ones has its name: the
/// declarations go with that one.
pub(crate) fn bound_before(
    alloc: Global,
    later: &[SymId],
    declared: &Declared,
    symbol: SymId,
) -> Result<Binder, AllocError>
    ensures { IfOk result (λ made. binder_of made ≡ bound_before_of later.now (declared_of declared.now) symbol) }
{
    if is_among(later, symbol) {
        Ok(undeclared(alloc, symbol))
    } else {
        bound_by(alloc, declared, symbol)
    }
}

/// The types of variables other than these.
fn other_types(
    alloc: Global,
    bound: &[SymId],
    types: &[Typed],
) -> Result<TypedVariables, AllocError>
    ensures { IfOk result (λ kept. map typed_of kept.items ≡ filter (λ t. not (is_among_of bound.now t.variable)) (map typed_of types.now)) }
{
    let mut kept = Vec::new(alloc);
    for typed in types {
        if !is_among(bound, typed.variable) {
            let variable = typed.variable;
            let spec = copy_type(alloc, &typed.spec)?;
            kept.push(Typed { variable, spec })?;
        }
    }
    Ok(kept)
}

/// The symbols other than these.
fn other_symbols(alloc: Global, bound: &[SymId], symbols: &[SymId]) -> Result<SymIds, AllocError>
    ensures { IfOk result (λ kept. kept.items ≡ filter (λ s. not (is_among_of bound.now s)) symbols.now) }
{
    symbols
        .iter()
        .copied()
        .filter(|symbol| !is_among(bound, *symbol))
        .collect(alloc)
}

/// The declarations of variables other than these, and the policy.
pub(crate) fn others(
    alloc: Global,
    bound: &[SymId],
    declared: &Declared,
) -> Result<Declared, AllocError>
    ensures { IfOk result (λ made. declared_of made ≡ others_of bound.now (declared_of declared.now)) }
{
    Ok(Declared {
        types: other_types(alloc, bound, &declared.types)?,
        specials: other_symbols(alloc, bound, &declared.specials)?,
        policy: declared.policy,
    })
}

/// The variables of bindings.
pub(crate) fn names(alloc: Global, bindings: &[(SymId, Val)]) -> Result<SymIds, AllocError>
    ensures { IfOk result (λ made. made.items ≡ names_of bindings.now) }
{
    bindings.iter().map(|binding| binding.0).collect(alloc)
}

/// The variables of bindings side by side, with their forms.
fn initials(
    alloc: Global,
    declared: &Declared,
    bindings: &[(SymId, Val)],
) -> Result<Vec<Initial>, AllocError>
    ensures { IfOk result (λ made. map initial_of made.items ≡ initials_of (declared_of declared.now) bindings.now) }
{
    let mut made = Vec::new(alloc);
    for (variable, value) in bindings {
        let binder = bound_by(alloc, declared, *variable)?;
        made.push(Initial {
            binder,
            value: *value,
        })?;
    }
    Ok(made)
}

/// Bindings side by side, round a body within the declarations of other variables (ANSI Common Lisp
/// 3.3.4, the entry of `LET`).
///
/// # Errors
/// Want of memory alone.
#[tactic(auto, unfolding(expansion::specs::Bindings::let_sketch))]
pub(crate) fn let_sketch(
    alloc: Global,
    declared: Declared,
    bindings: &[(SymId, Val)],
    body: Sketch,
) -> Result<Sketch, AllocError>
    ensures { IfOk result (λ made. sketch_of made ≡ let_sketch_of (declared_of declared) bindings.now (sketch_of body)) }
{
    let variables = initials(alloc, &declared, bindings)?;
    let bound = names(alloc, bindings)?;
    let body = within(alloc, others(alloc, &bound, &declared)?, body)?;
    bind(alloc, variables, body)
}

/// One binding round a body, where these variables are bound later.
fn bind_one(
    alloc: Global,
    declared: &Declared,
    binding: (SymId, Val),
    later: &[SymId],
    body: Sketch,
) -> Result<Sketch, AllocError>
    ensures { IfOk result (λ made. sketch_of made ≡ plain.bind (record { binder = bound_before_of later.now (declared_of declared.now) binding.0; value = binding.1 } ∷ []) (sketch_of body)) }
{
    let (variable, value) = binding;
    let binder = bound_before(alloc, later, declared, variable)?;
    bind(alloc, vec![in alloc; Initial { binder, value }]?, body)
}

/// Bindings one inside the other round a body, each declaration with the last binding of its
/// variable.
pub(crate) fn nested(
    alloc: Global,
    declared: &Declared,
    bindings: &[(SymId, Val)],
    body: Sketch,
) -> Result<Sketch, AllocError>
    ensures { IfOk result (λ made. sketch_of made ≡ nested_of (declared_of declared.now) bindings.now (sketch_of body)) }
{
    let variables = names(alloc, bindings)?;
    let mut made = body;
    for index in (0..bindings.len()).rev() {
        let later = &variables[index + 1..];
        made = bind_one(alloc, declared, bindings[index], later, made)?;
    }
    Ok(made)
}

/// The bindings of a `LET*` round a body; without variables it binds none.
///
/// # Errors
/// Want of memory alone.
#[tactic(auto, unfolding(expansion::specs::Bindings::let_in_order))]
pub(crate) fn let_in_order(
    alloc: Global,
    declared: &Declared,
    bindings: &[(SymId, Val)],
    body: Sketch,
) -> Result<Sketch, AllocError>
    ensures { IfOk result (λ made. sketch_of made ≡ let_in_order_of (declared_of declared.now) bindings.now (sketch_of body)) }
{
    match bindings {
        [] => bind(alloc, Vec::new(alloc), body),
        [_, ..] => nested(alloc, declared, bindings, body),
    }
}
