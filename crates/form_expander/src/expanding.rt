//! The tree that a form expands to: each form before its parts, from left to right.
//!
//! A form within the limits nests some thousands of calls of these functions. None is inlined into
//! another, nor what they call, so that a call's frame holds what that call needs and no more.

ghost use Rattle.std.specs.Prelude.{◌≡◌, IfOk, map, suc};
ghost use Rattle.core_form.specs.Reading.{core_of, cores_list, lambda_of, parameter_of};
ghost use Rattle.core_form.specs.ListReading.{bindings_list, definitions_list, items_list, optionals_list};
ghost use Rattle.expansion.specs.Expanding as definition;
ghost use Rattle.expansion.specs.Sketches as plain;
ghost use Rattle.form_expander.specs.Beginnings.{definition_from, leaf_made};
ghost use Rattle.form_expander.specs.Besides.{initials_beside, optionals_beside, pair_of};
ghost use Rattle.form_expander.specs.Extending.{Extends};
ghost use Rattle.form_expander.specs.Keeping.{Keeps};
ghost use Rattle.form_expander.specs.Outcomes.{Follows};
ghost use Rattle.form_expander.specs.Reading.{function_from, initial_of, optional_of, scope_of, sketch_of, sketches_list, unary_of, world_of};

use crate::beginnings::{after, checked_form, inside};
use crate::bodies::refusal;
use crate::expander::Expander;
use crate::fault::Fault;
use crate::nodes::{
    binary_node, binding_node, block_node, calling_node, copy_parameter, function_node,
    functions_node, leaf_node, many_node, optional_part, recursive_node, tagbody_node, unary_node,
};
use crate::parameters::OptionalParameter;
use crate::plans_of_variables::set_variable;
use crate::sketch::{Function, Initial, Optional, Sketch, Unary};
use crate::symbols::is_tag;
use core_form::{
    Binding, Core, Definition, Item, Lambda, Optional as OptionalPart, Parameter, choice,
};
use expansion::{Binary, Calling, ExpandKind, Leaf, Many, Reach};
use lisp_base::{SymId, Val};
use std::alloc::Global;

/// How many forms without a node may follow one another.
const MOST_CHAIN: u32 = 1000;

/// How deep nodes may stand.
const MOST_LEVELS: u32 = 1000;

/// More than any form takes.
const MOST_FUEL: u32 = 4_000_000;

impl Expander {
    /// A node without parts.
    #[tactic(auto, unfolding(crate::specs::Beginnings::leaf_made, crate::specs::Stepping::steps))]
    #[inline(never)]
    fn make_leaf(&mut self, levels: u32, leaf: Leaf) -> Result<Core, Fault>
        ensures follows { Follows core_of (leaf_made levels (scope_of self.old.scope) leaf (world_of self.old.world)) result (world_of self.new.world) }
        ensures scope { self.new.scope ≡ self.old.scope }
        ensures keeps { Keeps self.old.world self.new.world }
    {
        self.world.begin(1, levels, &self.scope)?;
        Ok(leaf_node(leaf, self.scope.place))
    }

    /// A node of one part.
    #[cycle(expanding)]
    #[tactic(auto, using(crate::proofs::Keeping::keeps_on, crate::proofs::Keeping::keeps_still), unfolding(expansion::specs::Expanding::make, crate::specs::Stepping::steps))]
    #[inline(never)]
    fn make_one(
        &mut self,
        alloc: Global,
        fuel: u32,
        levels: u32,
        node: &Unary,
        part: &Sketch,
    ) -> Result<Core, Fault>
        ensures follows { Follows core_of (definition.make (suc fuel) levels (scope_of self.old.scope) (plain.one (unary_of node.now) (sketch_of part.now)) (world_of self.old.world)) result (world_of self.new.world) }
        ensures scope { IfOk result (λ _. scope_of self.new.scope ≡ scope_of self.old.scope) }
        ensures keeps { Keeps self.old.world self.new.world }
    {
        self.world.begin_unary(levels, node, &self.scope)?;
        let part = self.make(alloc, fuel, inside(levels), part)?;
        Ok(unary_node(alloc, node, self.scope.place, part)?)
    }

    /// A node of two parts.
    #[cycle(expanding)]
    #[tactic(auto, using(crate::proofs::Keeping::keeps_on, crate::proofs::Keeping::keeps_still), unfolding(expansion::specs::Expanding::make, crate::specs::Stepping::steps))]
    #[inline(never)]
    fn make_two(
        &mut self,
        alloc: Global,
        fuel: u32,
        levels: u32,
        node: Binary,
        first: &Sketch,
        second: &Sketch,
    ) -> Result<Core, Fault>
        ensures follows { Follows core_of (definition.make (suc fuel) levels (scope_of self.old.scope) (plain.two node (sketch_of first.now) (sketch_of second.now)) (world_of self.old.world)) result (world_of self.new.world) }
        ensures scope { IfOk result (λ _. scope_of self.new.scope ≡ scope_of self.old.scope) }
        ensures keeps { Keeps self.old.world self.new.world }
    {
        self.world.begin(1, levels, &self.scope)?;
        let first = self.make(alloc, fuel, inside(levels), first)?;
        let second = self.make(alloc, fuel, inside(levels), second)?;
        Ok(binary_node(alloc, node, self.scope.place, first, second)?)
    }

    /// The choice between two parts by a third.
    #[cycle(expanding)]
    #[tactic(auto, using(crate::proofs::Keeping::keeps_on, crate::proofs::Keeping::keeps_still), unfolding(expansion::specs::Expanding::make, crate::specs::Stepping::steps))]
    #[inline(never)]
    fn make_choice(
        &mut self,
        alloc: Global,
        fuel: u32,
        levels: u32,
        test: &Sketch,
        yes: &Sketch,
        no: &Sketch,
    ) -> Result<Core, Fault>
        ensures follows { Follows core_of (definition.make (suc fuel) levels (scope_of self.old.scope) (plain.choice (sketch_of test.now) (sketch_of yes.now) (sketch_of no.now)) (world_of self.old.world)) result (world_of self.new.world) }
        ensures scope { IfOk result (λ _. scope_of self.new.scope ≡ scope_of self.old.scope) }
        ensures keeps { Keeps self.old.world self.new.world }
    {
        self.world.begin(1, levels, &self.scope)?;
        let test = self.make(alloc, fuel, inside(levels), test)?;
        let yes = self.make(alloc, fuel, inside(levels), yes)?;
        let no = self.make(alloc, fuel, inside(levels), no)?;
        Ok(choice(alloc, self.scope.place, test, yes, no)?)
    }

    /// Parts, from left to right.
    #[cycle(expanding)]
    #[tactic(auto, using(crate::proofs::Keeping::keeps_on, crate::proofs::Keeping::keeps_still))]
    #[inline(never)]
    fn make_each(
        &mut self,
        alloc: Global,
        fuel: u32,
        levels: u32,
        parts: &[Sketch],
    ) -> Result<Vec<Core>, Fault>
        ensures follows { Follows (λ made. cores_list made.items) (definition.each (definition.make fuel levels (scope_of self.old.scope)) (sketches_list parts.now) (world_of self.old.world)) result (world_of self.new.world) }
        ensures scope { IfOk result (λ _. scope_of self.new.scope ≡ scope_of self.old.scope) }
        ensures keeps { Keeps self.old.world self.new.world }
    {
        let mut made = Vec::new(alloc);
        for part in parts {
            made.push(self.make(alloc, fuel, levels, part)?)?;
        }
        Ok(made)
    }

    /// A node of any number of parts.
    #[cycle(expanding)]
    #[tactic(auto, using(crate::proofs::Keeping::keeps_on, crate::proofs::Keeping::keeps_still), unfolding(expansion::specs::Expanding::make, crate::specs::Stepping::steps))]
    #[inline(never)]
    fn make_many(
        &mut self,
        alloc: Global,
        fuel: u32,
        levels: u32,
        node: Many,
        parts: &[Sketch],
    ) -> Result<Core, Fault>
        ensures follows { Follows core_of (definition.make (suc fuel) levels (scope_of self.old.scope) (plain.many node (sketches_list parts.now)) (world_of self.old.world)) result (world_of self.new.world) }
        ensures scope { IfOk result (λ _. scope_of self.new.scope ≡ scope_of self.old.scope) }
        ensures keeps { Keeps self.old.world self.new.world }
    {
        self.world.begin(1, levels, &self.scope)?;
        let parts = self.make_each(alloc, fuel, inside(levels), parts)?;
        Ok(many_node(node, self.scope.place, parts))
    }

    /// A node of a part that gives a function, and of others.
    #[cycle(expanding)]
    #[tactic(auto, using(crate::proofs::Keeping::keeps_on, crate::proofs::Keeping::keeps_still), unfolding(expansion::specs::Expanding::make, crate::specs::Stepping::steps))]
    #[inline(never)]
    fn make_calling(
        &mut self,
        alloc: Global,
        fuel: u32,
        levels: u32,
        node: Calling,
        function: &Sketch,
        parts: &[Sketch],
    ) -> Result<Core, Fault>
        ensures follows { Follows core_of (definition.make (suc fuel) levels (scope_of self.old.scope) (plain.calling node (sketch_of function.now) (sketches_list parts.now)) (world_of self.old.world)) result (world_of self.new.world) }
        ensures scope { IfOk result (λ _. scope_of self.new.scope ≡ scope_of self.old.scope) }
        ensures keeps { Keeps self.old.world self.new.world }
    {
        self.world.begin(1, levels, &self.scope)?;
        let function = self.make(alloc, fuel, inside(levels), function)?;
        let parts = self.make_each(alloc, fuel, inside(levels), parts)?;
        Ok(calling_node(alloc, node, self.scope.place, function, parts)?)
    }

    /// The forms for the values of bindings, with the checks of their variables.
    #[cycle(expanding)]
    #[tactic(auto, using(crate::proofs::Keeping::keeps_on, crate::proofs::Keeping::keeps_still))]
    #[inline(never)]
    fn make_values(
        &mut self,
        alloc: Global,
        fuel: u32,
        levels: u32,
        bindings: &[Initial],
        parameters: &[Parameter],
    ) -> Result<Vec<Binding>, Fault>
        ensures follows { Follows (λ made. bindings_list made.items) (definition.values_bound (definition.make fuel levels (scope_of self.old.scope)) (initials_beside (map initial_of bindings.now) (map parameter_of parameters.now)) (world_of self.old.world)) result (world_of self.new.world) }
        ensures scope { IfOk result (λ _. scope_of self.new.scope ≡ scope_of self.old.scope) }
        ensures keeps { Keeps self.old.world self.new.world }
    {
        let mut made = Vec::new(alloc);
        for (binding, parameter) in bindings.iter().zip(parameters.iter()) {
            let form = checked_form(alloc, &parameter.types, binding.value)?;
            let value = self.make(alloc, fuel, levels, &form);
            drop(form);
            let value = value?;
            let parameter = copy_parameter(alloc, parameter)?;
            made.push(Binding { parameter, value })?;
        }
        Ok(made)
    }

    /// Bindings round a body. The scope becomes that of the body.
    #[cycle(expanding)]
    #[tactic(auto, using(crate::proofs::Keeping::keeps_on, crate::proofs::Keeping::keeps_still), unfolding(expansion::specs::Expanding::binding_node, crate::specs::Beginnings::begin_bindings, crate::specs::Stepping::steps))]
    #[inline(never)]
    fn make_bind(
        &mut self,
        alloc: Global,
        fuel: u32,
        levels: u32,
        bindings: &[Initial],
        body: &Sketch,
    ) -> Result<Core, Fault>
        ensures follows { Follows core_of (definition.binding_node levels (definition.make fuel) (scope_of self.old.scope) (map initial_of bindings.now) (sketch_of body.now) (world_of self.old.world)) result (world_of self.new.world) }
        ensures scope { IfOk result (λ _. Extends (scope_of self.old.scope) (scope_of self.new.scope)) }
        ensures keeps { Keeps self.old.world self.new.world }
    {
        let place = self.scope.place;
        let parameters = self
            .world
            .begin_bindings(alloc, levels, bindings, &self.scope)?;
        let values = self.make_values(alloc, fuel, inside(levels), bindings, &parameters)?;
        self.scope.add_initials(alloc, bindings, &parameters)?;
        let body = self.make(alloc, fuel, inside(levels), body)?;
        Ok(binding_node(alloc, place, values, body)?)
    }

    /// The forms for optional parameters, each within the parameters before it. The scope becomes
    /// that within all of them.
    #[cycle(expanding)]
    #[tactic(auto, using(crate::proofs::Keeping::keeps_on, crate::proofs::Keeping::keeps_still))]
    #[inline(never)]
    fn make_defaults(
        &mut self,
        alloc: Global,
        fuel: u32,
        levels: u32,
        optionals: &[Optional],
        parameters: &[OptionalParameter],
    ) -> Result<Vec<OptionalPart>, Fault>
        ensures follows { Follows (λ made. (optionals_list made.items, scope_of self.new.scope)) (definition.defaults (definition.make fuel levels) (scope_of self.old.scope) (optionals_beside (map optional_of optionals.now) (map pair_of parameters.now)) (world_of self.old.world)) result (world_of self.new.world) }
        ensures scope { IfOk result (λ _. Extends (scope_of self.old.scope) (scope_of self.new.scope)) }
        ensures keeps { Keeps self.old.world self.new.world }
    {
        let mut made = Vec::new(alloc);
        for (optional, parameter) in optionals.iter().zip(parameters.iter()) {
            let default = self.make(alloc, fuel, levels, &Sketch::Form(optional.default))?;
            self.scope.add_optional(alloc, optional, parameter)?;
            made.push(optional_part(alloc, optional, parameter, default)?)?;
        }
        Ok(made)
    }

    /// A function. The scope becomes that of its body.
    #[cycle(expanding)]
    #[tactic(auto, using(crate::proofs::Keeping::keeps_on, crate::proofs::Keeping::keeps_still))]
    #[inline(never)]
    fn make_function(
        &mut self,
        alloc: Global,
        fuel: u32,
        levels: u32,
        function: &Function,
    ) -> Result<Lambda, Fault>
        ensures follows { Follows lambda_of (definition.function_tree levels (definition.make fuel) (scope_of self.old.scope) (function_from function.now) (world_of self.old.world)) result (world_of self.new.world) }
        ensures scope { IfOk result (λ _. Extends (scope_of self.old.scope) (scope_of self.new.scope)) }
        ensures keeps { Keeps self.old.world self.new.world }
    {
        let begun = self
            .world
            .begin_function(alloc, levels, function, &self.scope)?;
        self.scope
            .add_required(alloc, &function.required, &begun.required)?;
        let levels = inside(levels);
        let optional = self.make_defaults(
            alloc,
            fuel,
            levels,
            &function.optional,
            &begun.optional,
        )?;
        self.scope.add_some(alloc, &function.rest, &begun.rest)?;
        let body = self.make(alloc, fuel, levels, &function.body)?;
        Ok(begun.complete(alloc, optional, body)?)
    }

    /// A local function, by its definition.
    #[cycle(expanding)]
    #[tactic(auto, using(crate::proofs::Keeping::keeps_on, crate::proofs::Keeping::keeps_still))]
    #[inline(never)]
    fn make_definition(
        &mut self,
        alloc: Global,
        fuel: u32,
        levels: u32,
        number: u32,
        value: Val,
    ) -> Result<Definition, Fault>
        ensures follows { Follows definition_from (definition.definition_at levels (definition.make fuel) (scope_of self.old.scope) number value (world_of self.old.world)) result (world_of self.new.world) }
        ensures scope { IfOk result (λ _. scope_of self.new.scope ≡ scope_of self.old.scope) }
        ensures keeps { Keeps self.old.world self.new.world }
    {
        let mark = self.scope.mark();
        let (name, function) = self.read_definition(alloc, value)?;
        let place = self.scope.place;
        let lambda = self.make_function(alloc, fuel, levels, &function)?;
        self.scope.leave(mark);
        Ok(Definition {
            place,
            number,
            name,
            lambda,
        })
    }

    /// Local functions, whose numbers follow one another from this one on.
    #[cycle(expanding)]
    #[tactic(auto, using(crate::proofs::Keeping::keeps_on, crate::proofs::Keeping::keeps_still))]
    #[inline(never)]
    fn make_definitions(
        &mut self,
        alloc: Global,
        fuel: u32,
        levels: u32,
        number: u32,
        values: &[Val],
    ) -> Result<Vec<Definition>, Fault>
        ensures follows { Follows (λ made. definitions_list made.items) (definition.definitions levels (definition.make fuel) (scope_of self.old.scope) number values.now (world_of self.old.world)) result (world_of self.new.world) }
        ensures scope { IfOk result (λ _. scope_of self.new.scope ≡ scope_of self.old.scope) }
        ensures keeps { Keeps self.old.world self.new.world }
    {
        let mut made = Vec::new(alloc);
        let mut number = number;
        for value in values {
            made.push(self.make_definition(alloc, fuel, levels, number, *value)?)?;
            number = after(number)?;
        }
        Ok(made)
    }

    /// Local functions round a body. The scope becomes that of the body.
    #[cycle(expanding)]
    #[tactic(auto, using(crate::proofs::Keeping::keeps_on, crate::proofs::Keeping::keeps_still))]
    #[inline(never)]
    fn make_functions(
        &mut self,
        alloc: Global,
        fuel: u32,
        levels: u32,
        reach: Reach,
        definitions: &[Val],
        body: &Sketch,
    ) -> Result<Core, Fault>
        ensures follows { Follows core_of (definition.functions_node levels (definition.make fuel) (scope_of self.old.scope) reach definitions.now (sketch_of body.now) (world_of self.old.world)) result (world_of self.new.world) }
        ensures scope { IfOk result (λ _. Extends (scope_of self.old.scope) (scope_of self.new.scope)) }
        ensures keeps { Keeps self.old.world self.new.world }
    {
        let place = self.scope.place;
        let (number, names) = self
            .world
            .begin_functions(alloc, levels, definitions, &self.scope)?;
        let levels = inside(levels);
        self.scope.add_before(reach, &names)?;
        let made = self.make_definitions(alloc, fuel, levels, number, definitions)?;
        self.scope.add_after(reach, &names)?;
        let body = self.make(alloc, fuel, levels, body)?;
        Ok(functions_node(alloc, place, made, body)?)
    }

    /// A local function as a value, within its own definition.
    #[cycle(expanding)]
    #[tactic(auto, using(crate::proofs::Keeping::keeps_on, crate::proofs::Keeping::keeps_still), unfolding(expansion::specs::Expanding::recursive_node, crate::specs::Beginnings::begin_numbers, crate::specs::Stepping::steps))]
    #[inline(never)]
    fn make_recursive(
        &mut self,
        alloc: Global,
        fuel: u32,
        levels: u32,
        name: SymId,
        function: &Function,
    ) -> Result<Core, Fault>
        ensures follows { Follows core_of (definition.recursive_node levels (definition.make fuel) (scope_of self.old.scope) name (function_from function.now) (world_of self.old.world)) result (world_of self.new.world) }
        ensures scope { IfOk result (λ _. scope_of self.new.scope ≡ scope_of self.old.scope) }
        ensures keeps { Keeps self.old.world self.new.world }
    {
        let mark = self.scope.mark();
        let number = self.world.begin_numbers(1, levels, &self.scope)?;
        self.scope.add_function(name, number)?;
        let lambda = self.make_function(alloc, fuel, inside(levels), function)?;
        self.scope.leave(mark);
        self.world.begin(1, inside(levels), &self.scope)?;
        Ok(recursive_node(alloc, self.scope.place, number, name, lambda)?)
    }

    /// A block round a body. The scope becomes that of the body.
    #[cycle(expanding)]
    #[tactic(auto, using(crate::proofs::Keeping::keeps_on, crate::proofs::Keeping::keeps_still), unfolding(expansion::specs::Expanding::block_node, crate::specs::Beginnings::begin_numbers, crate::specs::Stepping::steps))]
    #[inline(never)]
    fn make_block(
        &mut self,
        alloc: Global,
        fuel: u32,
        levels: u32,
        name: SymId,
        body: &Sketch,
    ) -> Result<Core, Fault>
        ensures follows { Follows core_of (definition.block_node levels (definition.make fuel) (scope_of self.old.scope) name (sketch_of body.now) (world_of self.old.world)) result (world_of self.new.world) }
        ensures scope { IfOk result (λ _. Extends (scope_of self.old.scope) (scope_of self.new.scope)) }
        ensures keeps { Keeps self.old.world self.new.world }
    {
        let place = self.scope.place;
        let number = self.world.begin_numbers(1, levels, &self.scope)?;
        self.scope.add_block(name, number)?;
        let body = self.make(alloc, fuel, inside(levels), body)?;
        Ok(block_node(alloc, place, number, name, body)?)
    }

    /// The tags and forms of a TAGBODY, with numbers of its tags from this one on.
    #[cycle(expanding)]
    #[tactic(auto, using(crate::proofs::Keeping::keeps_on, crate::proofs::Keeping::keeps_still))]
    #[inline(never)]
    fn make_items(
        &mut self,
        alloc: Global,
        fuel: u32,
        levels: u32,
        number: u32,
        values: &[Val],
    ) -> Result<Vec<Item>, Fault>
        ensures follows { Follows (λ made. items_list made.items) (definition.items (definition.make fuel levels (scope_of self.old.scope)) number values.now (world_of self.old.world)) result (world_of self.new.world) }
        ensures scope { IfOk result (λ _. scope_of self.new.scope ≡ scope_of self.old.scope) }
        ensures keeps { Keeps self.old.world self.new.world }
    {
        let mut made = Vec::new(alloc);
        let mut number = number;
        for value in values {
            if is_tag(*value) {
                made.push(Item::Tag(number, *value))?;
                number = after(number)?;
                continue;
            }
            made.push(Item::Step(self.make(alloc, fuel, levels, &Sketch::Form(*value))?))?;
        }
        Ok(made)
    }

    /// Tags and forms. The scope becomes that of the forms.
    #[cycle(expanding)]
    #[tactic(auto, using(crate::proofs::Keeping::keeps_on, crate::proofs::Keeping::keeps_still), unfolding(expansion::specs::Expanding::tagbody_node, crate::specs::Beginnings::begin_tags, crate::specs::Beginnings::begin_numbers, crate::specs::Stepping::steps))]
    #[inline(never)]
    fn make_tagbody(
        &mut self,
        alloc: Global,
        fuel: u32,
        levels: u32,
        values: &[Val],
    ) -> Result<Core, Fault>
        ensures follows { Follows core_of (definition.tagbody_node levels (definition.make fuel) (scope_of self.old.scope) values.now (world_of self.old.world)) result (world_of self.new.world) }
        ensures scope { IfOk result (λ _. Extends (scope_of self.old.scope) (scope_of self.new.scope)) }
        ensures keeps { Keeps self.old.world self.new.world }
    {
        let place = self.scope.place;
        let number = self.world.begin_tags(levels, values, &self.scope)?;
        self.scope.add_tags(number, values)?;
        let items = self.make_items(alloc, fuel, inside(levels), number, values)?;
        Ok(tagbody_node(place, items))
    }

    /// The tree of a form, which its chain of forms leads to. The scope becomes that of the last one.
    #[cycle(expanding)]
    #[tactic(auto, using(crate::proofs::Keeping::keeps_on, crate::proofs::Keeping::keeps_still), unfolding(expansion::specs::Expanding::make, crate::specs::Stepping::steps))]
    #[inline(never)]
    fn make_form(&mut self, alloc: Global, fuel: u32, levels: u32, form: Val) -> Result<Core, Fault>
        ensures follows { Follows core_of (definition.make (suc fuel) levels (scope_of self.old.scope) (plain.form form) (world_of self.old.world)) result (world_of self.new.world) }
        ensures scope { IfOk result (λ _. Extends (scope_of self.old.scope) (scope_of self.new.scope)) }
        ensures keeps { Keeps self.old.world self.new.world }
    {
        let led = self.lead(alloc, fuel, MOST_CHAIN, form)?;
        self.make(alloc, led.fuel, levels, &led.sketch)
    }

    /// The assignment of a variable.
    #[cycle(expanding)]
    #[tactic(auto, using(crate::proofs::Keeping::keeps_on, crate::proofs::Keeping::keeps_still), unfolding(expansion::specs::Expanding::make, crate::specs::Stepping::steps))]
    #[inline(never)]
    fn make_assigned(
        &mut self,
        alloc: Global,
        fuel: u32,
        levels: u32,
        name: SymId,
        value: Val,
    ) -> Result<Core, Fault>
        ensures follows { Follows core_of (definition.make (suc fuel) levels (scope_of self.old.scope) (plain.assign name value) (world_of self.old.world)) result (world_of self.new.world) }
        ensures scope { IfOk result (λ _. Extends (scope_of self.old.scope) (scope_of self.new.scope)) }
        ensures keeps { Keeps self.old.world self.new.world }
    {
        let sketch = set_variable(&self.world, alloc, &self.scope, name, value)?;
        self.make(alloc, fuel, levels, &sketch)
    }

    /// A function as a value. The scope becomes that of its body.
    #[cycle(expanding)]
    #[tactic(auto, using(crate::proofs::Keeping::keeps_on, crate::proofs::Keeping::keeps_still), unfolding(expansion::specs::Expanding::make, crate::specs::Stepping::steps))]
    #[inline(never)]
    fn make_value(
        &mut self,
        alloc: Global,
        fuel: u32,
        levels: u32,
        function: &Function,
    ) -> Result<Core, Fault>
        ensures follows { Follows core_of (definition.make (suc fuel) levels (scope_of self.old.scope) (plain.function (function_from function.now)) (world_of self.old.world)) result (world_of self.new.world) }
        ensures scope { IfOk result (λ _. Extends (scope_of self.old.scope) (scope_of self.new.scope)) }
        ensures keeps { Keeps self.old.world self.new.world }
    {
        let place = self.scope.place;
        let lambda = self.make_function(alloc, fuel, levels, function)?;
        Ok(function_node(place, lambda))
    }

    /// The tree of a sketch, its parts with this fuel. The scope may become that of a part.
    #[cycle(expanding)]
    #[tactic(auto, using(crate::proofs::Keeping::keeps_on, crate::proofs::Keeping::keeps_still), unfolding(expansion::specs::Expanding::make, crate::specs::Stepping::steps))]
    #[inline(never)]
    fn make_sketch(
        &mut self,
        alloc: Global,
        fuel: u32,
        levels: u32,
        sketch: &Sketch,
    ) -> Result<Core, Fault>
        ensures follows { Follows core_of (definition.make (suc fuel) levels (scope_of self.old.scope) (sketch_of sketch.now) (world_of self.old.world)) result (world_of self.new.world) }
        ensures scope { IfOk result (λ _. Extends (scope_of self.old.scope) (scope_of self.new.scope)) }
        ensures keeps { Keeps self.old.world self.new.world }
    {
        match sketch {
            Sketch::Form(form) => self.make_form(alloc, fuel, levels, *form),
            Sketch::Leaf(leaf) => self.make_leaf(levels, *leaf),
            Sketch::One(node, part) => self.make_one(alloc, fuel, levels, node, part),
            Sketch::Two(node, first, second) => {
                self.make_two(alloc, fuel, levels, *node, first, second)
            }
            Sketch::Choice(test, yes, no) => self.make_choice(alloc, fuel, levels, test, yes, no),
            Sketch::Many(node, parts) => self.make_many(alloc, fuel, levels, *node, parts),
            Sketch::Calling(node, function, parts) => {
                self.make_calling(alloc, fuel, levels, *node, function, parts)
            }
            Sketch::Bind(bindings, body) => self.make_bind(alloc, fuel, levels, bindings, body),
            Sketch::Assign(name, value) => self.make_assigned(alloc, fuel, levels, *name, *value),
            Sketch::Function(function) => self.make_value(alloc, fuel, levels, function),
            Sketch::Functions(reach, definitions, body) => {
                self.make_functions(alloc, fuel, levels, *reach, definitions, body)
            }
            Sketch::Recursive(name, function) => {
                self.make_recursive(alloc, fuel, levels, *name, function)
            }
            Sketch::Block(name, body) => self.make_block(alloc, fuel, levels, *name, body),
            Sketch::Tagbody(values) => self.make_tagbody(alloc, fuel, levels, values),
            Sketch::Within(declared, body) => {
                self.scope.add_declared(alloc, declared)?;
                self.make(alloc, fuel, levels, body)
            }
        }
    }

    /// The tree of a sketch, where so much fuel and so many levels are left.
    #[cycle(expanding)]
    #[tactic(auto, using(crate::proofs::Keeping::keeps_on, crate::proofs::Keeping::keeps_still))]
    #[inline(never)]
    fn make(
        &mut self,
        alloc: Global,
        fuel: u32,
        levels: u32,
        sketch: &Sketch,
    ) -> Result<Core, Fault>
        ensures follows { Follows core_of (definition.make fuel levels (scope_of self.old.scope) (sketch_of sketch.now) (world_of self.old.world)) result (world_of self.new.world) }
        ensures scope { IfOk result (λ _. scope_of self.new.scope ≡ scope_of self.old.scope) }
        ensures keeps { Keeps self.old.world self.new.world }
    {
        let Some(fuel) = fuel.checked_sub(1) else {
            return Err(refusal(ExpandKind::TooNested, &self.scope));
        };
        let mark = self.scope.mark();
        let core = self.make_sketch(alloc, fuel, levels, sketch)?;
        self.scope.leave(mark);
        Ok(core)
    }

    /// The tree of a form at the top, which its chain of forms has led to.
    ///
    /// # Errors
    /// The form's first refusal, and want of memory.
    pub fn tree_of(&mut self, alloc: Global, chain: u32, form: Val) -> Result<Core, Fault>
        ensures follows { Follows core_of (definition.tree_of chain (scope_of self.old.scope) form (world_of self.old.world)) result (world_of self.new.world) }
        ensures scope { IfOk result (λ _. scope_of self.new.scope ≡ scope_of self.old.scope) }
        ensures keeps { Keeps self.old.world self.new.world }
    {
        let mark = self.scope.mark();
        let led = self.lead(alloc, MOST_FUEL, chain, form)?;
        let core = self.make(alloc, led.fuel, MOST_LEVELS, &led.sketch)?;
        self.scope.leave(mark);
        Ok(core)
    }
}
