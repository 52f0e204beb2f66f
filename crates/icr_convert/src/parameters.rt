// The parameters of functions: arguments, checks, variables.
ghost use Rattle.std.specs.Prelude.{◌≡◌, ◌++◌, IfOk, OnOk, map, option_map};
ghost use Rattle.lisp_base.specs.Reading.{spec_of};
ghost use Rattle.core_form.specs.Facts.{if_given as if_any};
ghost use Rattle.core_form.specs.Reading.{parameter_of};
ghost use Rattle.graph_building.specs.Built.{NewCont};
ghost use Rattle.icr_convert.specs.Coding.{Checks, FirstAsserted, TakesGiven, TakesLeaf, TakesParameter, UnbindsThese};

use crate::converter::Converter;
use crate::copies::{copy_of, size_of};
use crate::names::Names;
use core_form::{Parameter, Variable};
use icr_graph::{ContIds, Leaf, NodeKind, Operation};
use ir_ids::{ContId, NodeId};
use lisp_base::{Place, TypeSpec};
use std::alloc::AllocError;

/// A variable that a function has bound, and the node that binds it.
#[derive(Clone, Copy)]
pub(crate) struct Bound {
    pub variable: Variable,
    pub by: NodeId,
}

impl Converter {
    /// Adds a continuation of whose values the first of these types is tested, if there is one.
    pub(crate) fn checked_cont(
        &mut self,
        place: Place,
        types: &[TypeSpec],
    ) -> Result<ContId, AllocError>
        ensures { IfOk result (NewCont (FirstAsserted place (map spec_of types.now)) self.old.built self.new.built) }
    {
        match types.first() {
            Some(spec) => {
                let spec = copy_of(self.alloc, spec)?;
                self.built.asserted_cont(spec, place)
            }
            None => self.built.cont(),
        }
    }

    /// Adds a node for each check of what a continuation holds, and gives the continuation behind
    /// them.
    pub(crate) fn checks(
        &mut self,
        place: Place,
        types: &[TypeSpec],
        value: ContId,
    ) -> Result<ContId, AllocError>
        ensures { IfOk result (Checks place (map spec_of types.now) value self.old.built self.new.built) }
    {
        let mut value = value;
        for number in 0..types.len() {
            let next = self.checked_cont(place, &types[number + 1..])?;
            let kind = NodeKind::Combination {
                operation: Operation::Pass,
                operands: ContIds::one(self.alloc, value),
            };
            self.plain(kind, Some(next), size_of(&types[number])?, place)?;
            value = next;
        }
        Ok(value)
    }

    /// Checks what a continuation holds, and binds a parameter to it.
    pub(crate) fn parameter(
        &mut self,
        names: &Names,
        place: Place,
        parameter: &Parameter,
        value: ContId,
    ) -> Result<Bound, AllocError>
        ensures stands { OnOk result (TakesParameter names.now place (parameter_of parameter.now) value self.old.built self.new.built) }
        ensures variable { IfOk result (λ bound. bound.variable ≡ parameter.now.variable) }
    {
        let checked = self.checks(place, &parameter.types, value)?;
        let variable = parameter.variable;
        let by = self.bind(names, place, variable, checked)?;
        Ok(Bound { variable, by })
    }

    /// Binds a parameter to what a leaf gives, when it is checked.
    pub(crate) fn argument(
        &mut self,
        names: &Names,
        place: Place,
        leaf: Leaf,
        parameter: &Parameter,
    ) -> Result<Bound, AllocError>
        ensures stands { OnOk result (TakesLeaf names.now place leaf (parameter_of parameter.now) self.old.built self.new.built) }
        ensures variable { IfOk result (λ bound. bound.variable ≡ parameter.now.variable) }
    {
        let value = self.checked_cont(place, &parameter.types)?;
        self.plain(NodeKind::Ref(leaf), Some(value), 0, place)?;
        self.parameter(names, place, parameter, value)
    }

    /// Binds a parameter to what a leaf gives, if there is the parameter.
    pub(crate) fn if_given(
        &mut self,
        names: &Names,
        place: Place,
        leaf: Leaf,
        parameter: &Option<Parameter>,
        bound: &mut Vec<Bound>,
    ) -> Result<(), AllocError>
        ensures stands { OnOk result (TakesGiven names.now place leaf (option_map parameter_of parameter.now) self.old.built self.new.built) }
        ensures bound { OnOk result (map (λ x. x.variable) bound.new.items ≡ map (λ x. x.variable) bound.old.items ++ map (λ x. x.variable) (if_any (option_map parameter_of parameter.now))) }
    {
        if let Some(parameter) = parameter {
            bound.push(self.argument(names, place, leaf, parameter)?)?;
        }
        Ok(())
    }

    /// Ends the extents of variables, the last one's first.
    pub(crate) fn unbind_these(&mut self, place: Place, bound: &[Bound]) -> Result<(), AllocError>
        ensures { OnOk result (UnbindsThese place (map (λ x. x.variable) bound.now) self.old.built self.new.built) }
    {
        for number in (0..bound.len()).rev() {
            self.unbind(place, bound[number].variable, Some(bound[number].by))?;
        }
        Ok(())
    }
}
