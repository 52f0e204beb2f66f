//! Chains of forms: each stands for the one before it, until one gives a node.

ghost use Rattle.std.specs.Prelude.{◌≡◌, ◌<◌, IfOk};
ghost use Rattle.expansion.specs.Forms.{plan_of as plan_for};
ghost use Rattle.expansion.specs.Scopes.{at_form};
ghost use Rattle.form_expander.specs.Chains.{led_to, leads, next_from, stepped};
ghost use Rattle.form_expander.specs.Extending.{Extends};
ghost use Rattle.form_expander.specs.Keeping.{Keeps};
ghost use Rattle.form_expander.specs.Outcomes.{Follows};
ghost use Rattle.form_expander.specs.Reading.{plan_from, scope_of, world_of};

use crate::bodies::refusal;
use crate::expander::Expander;
use crate::fault::Fault;
use crate::forms::plan_of;
use crate::sketch::{Plan, Sketch};
use expansion::ExpandKind;
use lisp_base::Val;
use std::alloc::Global;

/// What stands for a form.
#[derive(Drop)]
pub(crate) enum Next {
    /// This form.
    Form(Val),
    /// The node of this sketch.
    Sketch(Sketch),
}

/// Where a chain of forms has led to: a sketch, and the fuel that is left.
#[derive(Drop)]
pub(crate) struct Led {
    pub(crate) fuel: u32,
    pub(crate) sketch: Sketch,
}

impl Expander {
    /// What is to be done with a form. The scope becomes the form's.
    #[inline(never)]
    fn plan(&mut self, alloc: Global, form: Val) -> Result<Plan, Fault>
        ensures follows { Follows plan_from (plan_for (at_form self.old.world.heap form (scope_of self.old.scope)) form (world_of self.old.world)) result (world_of self.new.world) }
        ensures scope { scope_of self.new.scope ≡ at_form self.old.world.heap form (scope_of self.old.scope) }
        ensures keeps { Keeps self.old.world self.new.world }
    {
        self.scope.enter_form(&self.world.heap, form);
        plan_of(&mut self.world, alloc, &self.scope, form)
    }

    /// What stands for a form. The scope becomes that of it.
    #[inline(never)]
    fn next(&mut self, alloc: Global, form: Val) -> Result<Next, Fault>
        ensures follows { Follows (next_from (scope_of self.new.scope)) (stepped (scope_of self.old.scope) form (world_of self.old.world)) result (world_of self.new.world) }
        ensures keeps { Keeps self.old.world self.new.world }
    {
        match self.plan(alloc, form)? {
            Plan::Instead(next) => Ok(Next::Form(next)),
            Plan::DeclaredAround(declared, next) => {
                self.scope.add_declared(alloc, &declared)?;
                Ok(Next::Form(next))
            }
            Plan::Makes(sketch) => Ok(Next::Sketch(sketch)),
        }
    }

    /// Where the chain of forms from this one leads to. The scope becomes that of it.
    #[inline(never)]
    pub(crate) fn lead(
        &mut self,
        alloc: Global,
        fuel: u32,
        chain: u32,
        form: Val,
    ) -> Result<Led, Fault>
        ensures follows { Follows (led_to (scope_of self.new.scope)) (leads fuel chain (scope_of self.old.scope) form (world_of self.old.world)) result (world_of self.new.world) }
        ensures extends { IfOk result (λ led. Extends (scope_of self.old.scope) (scope_of self.new.scope)) }
        ensures smaller { IfOk result (λ led. led.fuel < fuel) }
        ensures keeps { Keeps self.old.world self.new.world }
    {
        let mut fuel = fuel;
        let mut chain = chain;
        let mut form = form;
        while fuel > 0 {
            fuel -= 1;
            match self.next(alloc, form)? {
                Next::Sketch(sketch) => return Ok(Led { fuel, sketch }),
                Next::Form(next) => form = next,
            }
            if chain == 0 {
                return Err(refusal(ExpandKind::TooNested, &self.scope));
            }
            chain -= 1;
        }
        Err(refusal(ExpandKind::TooNested, &self.scope))
    }
}
