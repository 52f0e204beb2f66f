// The code of functions.
ghost use Rattle.std.specs.Prelude.{◌≡◌, ◌∷◌, ◌++◌, IfOk, OnOk, map, option_map};
ghost use Rattle.core_form.specs.Facts.{if_given as if_any, optional_parameters, parameters_of};
ghost use Rattle.core_form.specs.Reading.{core_of, lambda_of, parameter_of};
ghost use Rattle.core_form.specs.ListReading.{optionals_list, parameters_list};
ghost use Rattle.icr_convert.specs.Coding.{are_lexical, Codes, TakesBody, TakesOptional, TakesOptionals, TakesOrDefault, TakesParameters, TakesRequired};

use crate::converter::Converter;
use crate::names::Names;
use crate::parameters::Bound;
use crate::setting::{Setting, one_more};
use core_form::{Core, Lambda, Optional, Parameter, Variable, reads_nodes};
use icr_graph::{Leaf, NodeKind};
use ir_ids::{BlockId, ContId};
use lisp_base::Place;
use std::alloc::AllocError;

/// A number that counts parameters.
///
/// # Errors
/// Told as want of memory: it has more than 32 bits.
pub(crate) fn count(number: usize) -> Result<u32, AllocError>
    ensures { IfOk result (λ n. n ≡ number) }
{
    match u32::try_from(number) {
        Ok(count) => Ok(count),
        Err(_) => Err(AllocError),
    }
}

/// Whether none of these variables is special.
fn all_lexical(bound: &[Bound]) -> bool
    ensures { result ≡ are_lexical (map (λ x. x.variable) bound.now) }
{
    for one in bound {
        if let Variable::Special(_) = one.variable {
            return false;
        }
    }
    true
}

impl Converter {
    /// Adds a function's code, from a block on that has no nodes.
    pub(crate) fn code(
        &mut self,
        names: &Names,
        place: Place,
        lambda: &Lambda,
        block: BlockId,
    ) -> Result<(), AllocError>
        ensures { OnOk result (Codes names.now place (lambda_of lambda.now) block self.old.built self.new.built) }
    {
        reads_nodes();
        self.built.begin(block)?;
        let bound = self.parameters(names, place, lambda)?;
        let value = self.body(names, &lambda.body, all_lexical(bound.as_slice()))?;
        self.unbind_these(place, bound.as_slice())?;
        self.plain(NodeKind::Return { value }, None, 0, place)?;
        Ok(())
    }

    /// Converts a function's body, whose values go to a new continuation.
    fn body(&mut self, names: &Names, body: &Core, tail: bool) -> Result<ContId, AllocError>
        ensures { IfOk result (TakesBody names.now tail (core_of body.now) self.old.built self.new.built) }
    {
        let value = self.built.cont()?;
        let mut setting = Setting::value(false, 0, value);
        setting.tail = tail;
        self.convert(names, body, setting)?;
        Ok(value)
    }

    /// Binds the parameters of a function, and gives what was bound.
    fn parameters(
        &mut self,
        names: &Names,
        place: Place,
        lambda: &Lambda,
    ) -> Result<Vec<Bound>, AllocError>
        ensures stands { OnOk result (TakesParameters names.now place (lambda_of lambda.now) self.old.built self.new.built) }
        ensures bound { IfOk result (λ bound. map (λ x. x.variable) bound.items ≡ map (λ x. x.variable) (parameters_of (lambda_of lambda.now))) }
    {
        reads_nodes();
        let mut bound = Vec::new(self.alloc);
        self.required(names, place, &lambda.required, &mut bound)?;
        let required = count(lambda.required.len())?;
        self.optionals(names, place, required, &lambda.optional, &mut bound)?;
        let fixed = count(lambda.required.len() + lambda.optional.len())?;
        self.if_given(
            names,
            place,
            Leaf::RestFrom(fixed),
            &lambda.rest,
            &mut bound,
        )?;
        Ok(bound)
    }

    /// Binds the parameters that a function requires.
    fn required(
        &mut self,
        names: &Names,
        place: Place,
        parameters: &[Parameter],
        bound: &mut Vec<Bound>,
    ) -> Result<(), AllocError>
        ensures stands { OnOk result (TakesRequired names.now place 0 (parameters_list parameters.now) self.old.built self.new.built) }
        ensures bound { OnOk result (map (λ x. x.variable) bound.new.items ≡ map (λ x. x.variable) bound.old.items ++ map (λ x. x.variable) (parameters_list parameters.now)) }
    {
        let mut number = 0;
        for parameter in parameters {
            bound.push(self.argument(names, place, Leaf::Argument(number), parameter)?)?;
            number = one_more(number)?;
        }
        Ok(())
    }

    /// Binds optional parameters, of which the first has this argument.
    fn optionals(
        &mut self,
        names: &Names,
        place: Place,
        first: u32,
        optionals: &[Optional],
        bound: &mut Vec<Bound>,
    ) -> Result<(), AllocError>
        ensures stands { OnOk result (TakesOptionals names.now place first (optionals_list optionals.now) self.old.built self.new.built) }
        ensures bound { OnOk result (map (λ x. x.variable) bound.new.items ≡ map (λ x. x.variable) bound.old.items ++ map (λ x. x.variable) (optional_parameters (optionals_list optionals.now))) }
    {
        let mut argument = first;
        for optional in optionals {
            self.optional(names, place, argument, optional, bound)?;
            argument = one_more(argument)?;
        }
        Ok(())
    }

    /// Binds an optional parameter to its argument, or to the value of its form where none is
    /// given; then the variable that tells which.
    fn optional(
        &mut self,
        names: &Names,
        place: Place,
        argument: u32,
        optional: &Optional,
        bound: &mut Vec<Bound>,
    ) -> Result<(), AllocError>
        ensures stands { OnOk result (TakesOptional names.now place argument optional.now self.old.built self.new.built) }
        ensures bound { OnOk result (map (λ x. x.variable) bound.new.items ≡ map (λ x. x.variable) bound.old.items ++ map (λ x. x.variable) (parameter_of optional.now.parameter ∷ if_any (option_map parameter_of optional.now.supplied))) }
    {
        let value = self.argument_or_default(names, place, argument, optional)?;
        bound.push(self.parameter(names, place, &optional.parameter, value)?)?;
        self.if_given(
            names,
            place,
            Leaf::Supplied(argument),
            &optional.supplied,
            bound,
        )
    }

    /// Delivers an argument, or the value of a form where it isn't given.
    fn argument_or_default(
        &mut self,
        names: &Names,
        place: Place,
        argument: u32,
        optional: &Optional,
    ) -> Result<ContId, AllocError>
        ensures { IfOk result (TakesOrDefault names.now place argument optional.now self.old.built self.new.built) }
    {
        let test = self.built.cont()?;
        let value = self.checked_cont(place, &optional.parameter.types)?;
        self.plain(
            NodeKind::Ref(Leaf::Supplied(argument)),
            Some(test),
            0,
            place,
        )?;
        self.plain(NodeKind::If { test }, None, 0, place)?;
        let given = self.built.block()?;
        let missing = self.built.block()?;
        let join = self.built.block()?;
        self.built.fork(given, missing)?;
        self.plain(
            NodeKind::Ref(Leaf::Argument(argument)),
            Some(value),
            0,
            place,
        )?;
        self.built.go_on(join, missing)?;
        self.convert(names, &optional.default, Setting::value(false, 0, value))?;
        self.built.go_on(join, join)?;
        Ok(value)
    }
}
