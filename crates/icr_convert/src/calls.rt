// Calls of functions.
ghost use Rattle.std.specs.Prelude.{◌≡◌, ◌∷◌, IfOk, OnOk};
ghost use Rattle.core_form.specs.Tree as tree;
ghost use Rattle.core_form.specs.Reading.{core_of, cores_list};
ghost use Rattle.icr_convert.specs.Converting.{CallsOn, CallsInPlace, CallsKnown, Converts};

use crate::arguments::left_after;
use crate::converter::Converter;
use crate::names::Names;
use crate::setting::{Setting, one_more};
use core_form::{Core, Form, reads_nodes};
use icr_graph::{ContIds, Leaf, NodeKind, Operation};
use ir_ids::{ContId, FunId};
use lisp_base::{Place, SymId};
use std::alloc::{AllocError, Global};

/// A continuation before others.
fn before(alloc: Global, first: ContId, others: &[ContId]) -> Result<ContIds, AllocError>
    ensures { IfOk result (λ ks. ks ≡ first ∷ others.now) }
{
    let mut all = ContIds::one(alloc, first);
    all.extend(others)?;
    Ok(all)
}

impl Converter {
    #[cycle(convert)]
    pub(crate) fn call_local(
        &mut self,
        names: &Names,
        place: Place,
        number: u32,
        parts: &[Core],
        setting: Setting,
    ) -> Result<(), AllocError>
        ensures { OnOk result (Converts names.now setting (tree.CallLocal place number (cores_list parts.now)) self.old.built self.new.built) }
    {
        let made = names.local_function(number)?;
        let cost = one_more(setting.cost)?;
        let operands = self.operands(names, parts, None, false, cost, place)?;
        let closed = self.built.cont()?;
        let leaf = Leaf::Closed {
            function: made.function,
            counted: false,
        };
        let left = left_after(parts, cost);
        self.plain(NodeKind::Ref(leaf), Some(closed), left, place)?;
        let all = before(self.alloc, closed, operands.as_slice())?;
        self.call_known(made.function, all, place, setting)
    }

    /// Calls a known function, whose closed values the first operand is.
    pub(crate) fn call_known(
        &mut self,
        function: FunId,
        operands: ContIds,
        place: Place,
        setting: Setting,
    ) -> Result<(), AllocError>
        ensures { OnOk result (CallsKnown function operands place setting self.old.built self.new.built) }
    {
        let operation = Operation::CallKnown {
            function,
            entry: None,
            tail: setting.tail,
        };
        self.give(
            NodeKind::Combination {
                operation,
                operands,
            },
            0,
            place,
            setting,
        )?;
        Ok(())
    }

    #[cycle(convert)]
    pub(crate) fn call_global(
        &mut self,
        names: &Names,
        place: Place,
        name: SymId,
        parts: &[Core],
        setting: Setting,
    ) -> Result<(), AllocError>
        ensures { OnOk result (Converts names.now setting (tree.CallGlobal place name (cores_list parts.now)) self.old.built self.new.built) }
    {
        let cost = one_more(setting.cost)?;
        let operands = self.operands(names, parts, None, false, cost, place)?;
        let operation = Operation::CallGlobal {
            name,
            tail: setting.tail,
        };
        let left = left_after(parts, cost);
        self.give(
            NodeKind::Combination {
                operation,
                operands,
            },
            left,
            place,
            setting,
        )?;
        Ok(())
    }

    #[cycle(convert)]
    pub(crate) fn funcall(
        &mut self,
        names: &Names,
        form: &Core,
        setting: Setting,
    ) -> Result<(), AllocError>
        ensures { OnOk result (Converts names.now setting (core_of form.now) self.old.built self.new.built) }
    {
        reads_nodes();
        let place = form.place;
        let Form::Funcall(function, parts) = &form.form else {
            return Err(AllocError);
        };
        let parts = parts.as_slice();
        let known = names.known(function, parts.len())?;
        match known {
            Some(made) => self.funcall_known(names, place, made, parts, setting),
            None => {
                let cost = one_more(setting.cost)?;
                let first = self.value_of(names, function, false, cost)?;
                let operation = Operation::Funcall { tail: setting.tail };
                self.call_on(names, place, first, parts, operation, setting)
            }
        }
    }

    /// Calls a function that is named where it is called.
    #[cycle(convert)]
    pub(crate) fn funcall_known(
        &mut self,
        names: &Names,
        place: Place,
        function: FunId,
        parts: &[Core],
        setting: Setting,
    ) -> Result<(), AllocError>
        ensures { OnOk result (CallsInPlace names.now place function (cores_list parts.now) setting self.old.built self.new.built) }
    {
        let first_cost = one_more(setting.cost)?;
        let cost = one_more(first_cost)?;
        let closed = self.built.cont()?;
        let leaf = Leaf::Closed {
            function,
            counted: true,
        };
        self.plain(NodeKind::Ref(leaf), Some(closed), cost, place)?;
        let operands = self.operands(names, parts, None, false, 0, place)?;
        let all = before(self.alloc, closed, operands.as_slice())?;
        self.call_known(function, all, place, setting)
    }

    #[cycle(convert)]
    pub(crate) fn apply(
        &mut self,
        names: &Names,
        form: &Core,
        setting: Setting,
    ) -> Result<(), AllocError>
        ensures { OnOk result (Converts names.now setting (core_of form.now) self.old.built self.new.built) }
    {
        reads_nodes();
        let place = form.place;
        let Form::Apply(function, parts) = &form.form else {
            return Err(AllocError);
        };
        let parts = parts.as_slice();
        let cost = one_more(setting.cost)?;
        let first = self.value_of(names, function, false, cost)?;
        let operation = Operation::Apply { tail: setting.tail };
        self.call_on(names, place, first, parts, operation, setting)
    }

    /// Does an operation with what a continuation holds, and the values of forms.
    #[cycle(convert)]
    pub(crate) fn call_on(
        &mut self,
        names: &Names,
        place: Place,
        first: ContId,
        parts: &[Core],
        operation: Operation,
        setting: Setting,
    ) -> Result<(), AllocError>
        ensures { OnOk result (CallsOn names.now place first (cores_list parts.now) operation setting self.old.built self.new.built) }
    {
        let operands = self.operands(names, parts, None, false, 0, place)?;
        let all = before(self.alloc, first, operands.as_slice())?;
        let kind = NodeKind::Combination {
            operation,
            operands: all,
        };
        self.give(kind, 0, place, setting)?;
        Ok(())
    }

    #[cycle(convert)]
    pub(crate) fn call_with_values(
        &mut self,
        names: &Names,
        form: &Core,
        setting: Setting,
    ) -> Result<(), AllocError>
        ensures { OnOk result (Converts names.now setting (core_of form.now) self.old.built self.new.built) }
    {
        reads_nodes();
        let place = form.place;
        let Form::MvCall(function, parts) = &form.form else {
            return Err(AllocError);
        };
        let parts = parts.as_slice();
        let cost = one_more(setting.cost)?;
        let function = self.value_of(names, function, false, cost)?;
        let entries = self.gather(names, place, parts)?;
        let operands = self.release_all(place, parts, entries.as_slice())?;
        let tail = setting.tail;
        let kind = NodeKind::MvCombination {
            function,
            operands,
            tail,
        };
        self.give(kind, 0, place, setting)?;
        Ok(())
    }
}
