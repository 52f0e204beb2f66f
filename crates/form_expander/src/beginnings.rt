//! Nodes that begin: what they count, the numbers that they take, and the scopes within them.

ghost use Rattle.std.specs.Prelude.{◌≡◌, ◌+◌, IfOk, IfSome, OnOk, length, map};
ghost use Rattle.std.specs.Option.{option_map};
ghost use Rattle.lisp_base.specs.Reading.{spec_of};
ghost use Rattle.core_form.specs.ListReading.{optionals_list};
ghost use Rattle.core_form.specs.Reading.{core_of, lambda_of, parameter_of};
ghost use Rattle.core_form.specs.Tree as tree;
ghost use Rattle.expansion.specs.Sketches as plain;
ghost use Rattle.expansion.specs.Steps.{inside as levels_inside, begin as begun_by};
ghost use Rattle.expansion.specs.Expanding as definition;
ghost use Rattle.expansion.specs.Expanding.{parameters, parameter_some};
ghost use Rattle.form_expander.specs.Beginnings as steps;
ghost use Rattle.form_expander.specs.Besides.{beside, beside_some, initials_beside, pair_of};
ghost use Rattle.form_expander.specs.Extending.{Extends};
ghost use Rattle.form_expander.specs.Keeping.{Keeps};
ghost use Rattle.form_expander.specs.Outcomes.{Follows};
ghost use Rattle.form_expander.specs.Reading.{binder_of, function_from, initial_of, optional_of, scope_of, sketch_of, unary_of, world_of};

use crate::bodies::refusal;
use crate::expander::Expander;
use crate::fault::Fault;
use crate::functions::function_sketch;
use crate::making::checked;
use crate::nodes::copy_types;
use crate::parameters::{
    OptionalParameter, make_initials, make_optionals, make_parameters, make_some,
};
use crate::scope::Scope;
use crate::sizes::{add_if_there, add_optionals, add_parameters, unary_count};
use crate::sketch::{Binder, Function, Initial, Optional, Sketch, Unary};
use crate::symbols::{definable, is_tag, tail_of};
use crate::world::World;
use core_form::{Core, Lambda, Optional as OptionalPart, Parameter, reads_nodes};
use expansion::{ExpandKind, Reach};
use lisp_base::{Heap, SymId, TypeSpec, Val};
use lisp_forms::{cons_of, elements};
use std::alloc::{AllocError, Global};

/// Names of local functions with their numbers.
pub(crate) type Names = Vec<(SymId, u32)>;

/// The levels that are left inside a node.
pub(crate) fn inside(levels: u32) -> u32
    ensures { result ≡ levels_inside levels }
{
    levels.saturating_sub(1)
}

/// The number after a number.
pub(crate) fn after(number: u32) -> Result<u32, AllocError>
    ensures { IfOk result (λ next. next ≡ number + 1) }
{
    number.checked_add(1).ok_or(AllocError)
}

/// A form for the value of a variable, with its checks.
#[inline(never)]
pub(crate) fn checked_form(
    alloc: Global,
    types: &[TypeSpec],
    value: Val,
) -> Result<Sketch, AllocError>
    ensures { IfOk result (λ made. sketch_of made ≡ plain.checked (map spec_of types.now) (plain.form value)) }
{
    checked(alloc, copy_types(alloc, types)?, Sketch::Form(value))
}

/// How many tags there are among the parts of a TAGBODY.
fn count_tags(items: &[Val]) -> Result<u32, AllocError>
    ensures { IfOk result (λ count. count ≡ definition.tags_in items.now) }
{
    let mut count = 0;
    for item in items {
        if is_tag(*item) {
            count = after(count)?;
        }
    }
    Ok(count)
}

/// How many these are.
fn count_of(items: &[Val]) -> Result<u32, AllocError>
    ensures { IfOk result (λ count. count ≡ length items.now) }
{
    match u32::try_from(items.len()) {
        Ok(count) => Ok(count),
        Err(_) => Err(AllocError),
    }
}

/// What a node of bindings counts.
fn count_bindings(bindings: &[Initial]) -> Result<u32, AllocError>
    ensures { IfOk result (λ count. count ≡ 1 + length (map initial_of bindings.now)) }
{
    match u32::try_from(bindings.len()) {
        Ok(count) => after(count),
        Err(_) => Err(AllocError),
    }
}

/// The name of a definition, where it has one that may be given.
fn definition_name(scope: &Scope, heap: &Heap, value: Val) -> Option<SymId>
    ensures { result ≡ definition.definition_name (scope_of scope.now) heap.now value }
{
    match cons_of(heap, value) {
        Some((name, _)) => definable(scope, name),
        None => None,
    }
}

/// The names of definitions, with the numbers of their functions from this one on.
fn definition_names(
    alloc: Global,
    scope: &Scope,
    heap: &Heap,
    number: u32,
    definitions: &[Val],
) -> Result<Names, AllocError>
    ensures { IfOk result (λ names. names.items ≡ steps.names_of (scope_of scope.now) heap.now number definitions.now) }
{
    let mut names = Vec::new(alloc);
    let mut number = number;
    for value in definitions {
        if let Some(name) = definition_name(scope, heap, *value) {
            names.push((name, number))?;
        }
        number = after(number)?;
    }
    Ok(names)
}

/// The name that a definition gives to its function.
fn name_of(
    alloc: Global,
    scope: &Scope,
    heap: &Heap,
    value: Val,
) -> Result<Option<SymId>, AllocError>
    ensures { IfOk result (λ found. found ≡ steps.name_given (scope_of scope.now) heap.now value) }
{
    match elements(alloc, heap, value)? {
        Some(parts) => Ok(parts.first().and_then(|name| definable(scope, *name))),
        None => Ok(None),
    }
}

impl Scope {
    /// Local functions of these names and numbers.
    fn add_functions(&mut self, names: &[(SymId, u32)]) -> Result<(), AllocError>
        ensures { OnOk result (scope_of self.new ≡ steps.with_names names.now (scope_of self.old)) }
    {
        for (name, number) in names {
            self.add_function(*name, *number)?;
        }
        Ok(())
    }

    /// Local functions, for their definitions, if they may be called there.
    #[inline(never)]
    pub(crate) fn add_before(
        &mut self,
        reach: Reach,
        names: &[(SymId, u32)],
    ) -> Result<(), AllocError>
        ensures { OnOk result (scope_of self.new ≡ definition.around_definitions reach (scope_of self.old) (steps.with_names names.now (scope_of self.old))) }
    {
        match reach {
            Reach::ForBody => Ok(()),
            Reach::ForAll => self.add_functions(names),
        }
    }

    /// The same, for the body after their definitions.
    #[inline(never)]
    pub(crate) fn add_after(
        &mut self,
        reach: Reach,
        names: &[(SymId, u32)],
    ) -> Result<(), AllocError>
        ensures { OnOk result (scope_of self.new ≡ definition.around_definitions reach (steps.with_names names.now (scope_of self.old)) (scope_of self.old)) }
    {
        match reach {
            Reach::ForBody => self.add_functions(names),
            Reach::ForAll => Ok(()),
        }
    }

    /// The tags of a TAGBODY, with their numbers from this one on.
    #[inline(never)]
    pub(crate) fn add_tags(&mut self, number: u32, items: &[Val]) -> Result<(), AllocError>
        ensures { OnOk result (scope_of self.new ≡ definition.with_tags number items.now (scope_of self.old)) }
    {
        let mut number = number;
        for item in items {
            if is_tag(*item) {
                self.add_tag(*item, number)?;
                number = after(number)?;
            }
        }
        Ok(())
    }

    /// Variables that a function requires.
    #[inline(never)]
    pub(crate) fn add_required(
        &mut self,
        alloc: Global,
        binders: &[Binder],
        parameters: &[Parameter],
    ) -> Result<(), AllocError>
        ensures { OnOk result (scope_of self.new ≡ definition.with_all (scope_of self.old) (beside (map binder_of binders.now) (map parameter_of parameters.now))) }
    {
        for (binder, parameter) in binders.iter().zip(parameters.iter()) {
            self.add_bound(alloc, binder, parameter)?;
        }
        Ok(())
    }

    /// Variables of bindings.
    #[inline(never)]
    pub(crate) fn add_initials(
        &mut self,
        alloc: Global,
        bindings: &[Initial],
        parameters: &[Parameter],
    ) -> Result<(), AllocError>
        ensures { OnOk result (scope_of self.new ≡ definition.with_all (scope_of self.old) (definition.bounds_of (initials_beside (map initial_of bindings.now) (map parameter_of parameters.now)))) }
    {
        for (binding, parameter) in bindings.iter().zip(parameters.iter()) {
            self.add_bound(alloc, &binding.binder, parameter)?;
        }
        Ok(())
    }

    /// A variable that may be missing.
    #[inline(never)]
    pub(crate) fn add_some(
        &mut self,
        alloc: Global,
        binder: &Option<Binder>,
        parameter: &Option<Parameter>,
    ) -> Result<(), AllocError>
        ensures { OnOk result (scope_of self.new ≡ definition.with_some (scope_of self.old) (beside_some (option_map binder_of binder.now) (option_map parameter_of parameter.now))) }
    {
        match (binder, parameter) {
            (Some(binder), Some(parameter)) => self.add_bound(alloc, binder, parameter),
            (Some(_), None) | (None, Some(_)) | (None, None) => Ok(()),
        }
    }

    /// An optional parameter, and the variable that tells whether an argument was given.
    #[inline(never)]
    pub(crate) fn add_optional(
        &mut self,
        alloc: Global,
        optional: &Optional,
        parameter: &OptionalParameter,
    ) -> Result<(), AllocError>
        ensures { OnOk result (scope_of self.new ≡ steps.with_optional (scope_of self.old) (optional_of optional.now) (pair_of parameter.now)) }
    {
        self.add_bound(alloc, &optional.binder, &parameter.parameter)?;
        self.add_some(alloc, &optional.supplied, &parameter.supplied)
    }
}

/// A function that begins: its number, and its parameters.
#[derive(Drop)]
pub(crate) struct Beginning {
    pub(crate) number: u32,
    pub(crate) required: Vec<Parameter>,
    pub(crate) optional: Vec<OptionalParameter>,
    pub(crate) rest: Option<Parameter>,
}

impl Beginning {
    /// What the node of the function counts.
    fn count(&self) -> Option<u32>
        ensures { IfSome result (λ count. count ≡ steps.count_of self.now) }
    {
        let required = add_parameters(1, &self.required)?;
        add_if_there(add_optionals(required, &self.optional)?, &self.rest)
    }

    /// The function with the forms for its optional parameters and its body.
    #[inline(never)]
    pub(crate) fn complete(
        self,
        alloc: Global,
        optional: Vec<OptionalPart>,
        body: Core,
    ) -> Result<Lambda, AllocError>
        ensures { IfOk result (λ made. lambda_of made ≡ tree.lambda self.number (map parameter_of self.required.items) (optionals_list optional.items) (option_map parameter_of self.rest) (core_of body)) }
    {
        reads_nodes();
        Ok(Lambda {
            number: self.number,
            required: self.required,
            optional,
            rest: self.rest,
            body: Box::new(alloc, body)?,
        })
    }
}

impl World {
    /// A node of one part.
    #[inline(never)]
    pub(crate) fn begin_unary(
        &mut self,
        levels: u32,
        node: &Unary,
        scope: &Scope,
    ) -> Result<(), Fault>
        ensures follows { Follows (λ _. tt) (begun_by (plain.unary_count (unary_of node.now)) levels (scope_of scope.now) (world_of self.old)) result (world_of self.new) }
        ensures symbols { self.new.symbols ≡ self.old.symbols }
    {
        let count = unary_count(node).ok_or(Fault::Memory)?;
        self.begin(count, levels, scope)
    }

    /// A node that takes numbers.
    #[tactic(auto, unfolding(crate::specs::Beginnings::begin_numbers, crate::specs::Stepping::steps))]
    #[inline(never)]
    pub(crate) fn begin_numbers(
        &mut self,
        count: u32,
        levels: u32,
        scope: &Scope,
    ) -> Result<u32, Fault>
        ensures follows { Follows (λ n. n) (steps.begin_numbers count levels (scope_of scope.now) (world_of self.old)) result (world_of self.new) }
        ensures symbols { self.new.symbols ≡ self.old.symbols }
    {
        self.begin(1, levels, scope)?;
        self.take_numbers(count)
    }

    /// A node of bindings, with their parameters.
    #[tactic(auto, unfolding(crate::specs::Beginnings::begin_bindings, crate::specs::Stepping::steps))]
    #[inline(never)]
    pub(crate) fn begin_bindings(
        &mut self,
        alloc: Global,
        levels: u32,
        bindings: &[Initial],
        scope: &Scope,
    ) -> Result<Vec<Parameter>, Fault>
        ensures follows { Follows (λ made. initials_beside (map initial_of bindings.now) (map parameter_of made.items)) (steps.begin_bindings levels (scope_of scope.now) (map initial_of bindings.now) (world_of self.old)) result (world_of self.new) }
        ensures symbols { self.new.symbols ≡ self.old.symbols }
    {
        self.begin(count_bindings(bindings)?, levels, scope)?;
        make_initials(self, alloc, bindings)
    }

    /// A node of local functions, with their names and numbers.
    #[tactic(auto, unfolding(crate::specs::Beginnings::begin_functions, crate::specs::Stepping::steps))]
    #[inline(never)]
    pub(crate) fn begin_functions(
        &mut self,
        alloc: Global,
        levels: u32,
        definitions: &[Val],
        scope: &Scope,
    ) -> Result<(u32, Names), Fault>
        ensures follows { Follows (λ r. (r.0, r.1.items)) (steps.begin_functions levels (scope_of scope.now) definitions.now (world_of self.old)) result (world_of self.new) }
        ensures symbols { self.new.symbols ≡ self.old.symbols }
    {
        let number = self.begin_numbers(count_of(definitions)?, levels, scope)?;
        let names = definition_names(alloc, scope, &self.heap, number, definitions)?;
        Ok((number, names))
    }

    /// The parameters of a function, with its number.
    #[tactic(auto, unfolding(crate::specs::Beginnings::made_parameters, crate::specs::Stepping::steps))]
    fn parameters(&mut self, alloc: Global, function: &Function) -> Result<Beginning, Fault>
        ensures follows { Follows (steps.beginning_from (function_from function.now)) (steps.made_parameters (function_from function.now) (world_of self.old)) result (world_of self.new) }
        ensures count { IfOk result (λ made. steps.size_of (steps.beginning_from (function_from function.now) made) ≡ steps.count_of made) }
        ensures required { IfOk result (λ made. parameters (steps.beginning_from (function_from function.now) made).required ≡ map parameter_of made.required.items) }
        ensures rest { IfOk result (λ made. parameter_some (steps.beginning_from (function_from function.now) made).rest ≡ option_map parameter_of made.rest) }
        ensures symbols { self.new.symbols ≡ self.old.symbols }
    {
        let number = self.take_function()?;
        let required = make_parameters(self, alloc, &function.required)?;
        let optional = make_optionals(self, alloc, &function.optional)?;
        let rest = make_some(self, alloc, &function.rest)?;
        Ok(Beginning {
            number,
            required,
            optional,
            rest,
        })
    }

    /// A node of a function, with its parameters.
    #[tactic(auto, unfolding(crate::specs::Beginnings::begin_function, crate::specs::Beginnings::begin_made, crate::specs::Stepping::steps))]
    #[inline(never)]
    pub(crate) fn begin_function(
        &mut self,
        alloc: Global,
        levels: u32,
        function: &Function,
        scope: &Scope,
    ) -> Result<Beginning, Fault>
        ensures follows { Follows (steps.beginning_from (function_from function.now)) (steps.begin_function levels (scope_of scope.now) (function_from function.now) (world_of self.old)) result (world_of self.new) }
        ensures required { IfOk result (λ made. parameters (steps.beginning_from (function_from function.now) made).required ≡ map parameter_of made.required.items) }
        ensures rest { IfOk result (λ made. parameter_some (steps.beginning_from (function_from function.now) made).rest ≡ option_map parameter_of made.rest) }
        ensures symbols { self.new.symbols ≡ self.old.symbols }
    {
        let beginning = self.parameters(alloc, function)?;
        let count = beginning.count().ok_or(Fault::Memory)?;
        self.begin(count, levels, scope)?;
        Ok(beginning)
    }

    /// A node of tags, with the number of the first.
    #[tactic(auto, unfolding(crate::specs::Beginnings::begin_tags))]
    #[inline(never)]
    pub(crate) fn begin_tags(
        &mut self,
        levels: u32,
        items: &[Val],
        scope: &Scope,
    ) -> Result<u32, Fault>
        ensures follows { Follows (λ n. n) (steps.begin_tags levels (scope_of scope.now) items.now (world_of self.old)) result (world_of self.new) }
        ensures symbols { self.new.symbols ≡ self.old.symbols }
    {
        self.begin_numbers(count_tags(items)?, levels, scope)
    }
}

impl Expander {
    /// The name and the function of a definition. The scope becomes the definition's.
    #[tactic(auto, unfolding(crate::specs::Beginnings::read_definition, crate::specs::Beginnings::read_definition_in, crate::specs::Stepping::steps))]
    #[inline(never)]
    pub(crate) fn read_definition(
        &mut self,
        alloc: Global,
        value: Val,
    ) -> Result<(SymId, Function), Fault>
        ensures follows { Follows (λ r. (r.0, function_from r.1, scope_of self.new.scope)) (steps.read_definition (scope_of self.old.scope) value (world_of self.old.world)) result (world_of self.new.world) }
        ensures extends { IfOk result (λ _. Extends (scope_of self.old.scope) (scope_of self.new.scope)) }
        ensures keeps { Keeps self.old.world self.new.world }
    {
        self.scope.enter_form(&self.world.heap, value);
        let Some(name) = name_of(alloc, &self.scope, &self.world.heap, value)? else {
            return Err(refusal(ExpandKind::BadForm, &self.scope));
        };
        let list = tail_of(&self.world.heap, value);
        let function = function_sketch(&mut self.world, alloc, &self.scope, Some(name), list)?;
        Ok((name, function))
    }
}
