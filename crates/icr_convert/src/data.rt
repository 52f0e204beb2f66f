// Constants, variables, global values and functions, type tests.
ghost use Rattle.std.specs.Prelude.{OnOk};
ghost use Rattle.lisp_base.specs.Reading.{spec_of};
ghost use Rattle.core_form.specs.Tree as tree;
ghost use Rattle.core_form.specs.Reading.{core_of, lambda_of};
ghost use Rattle.icr_convert.specs.Converting.{Converts};

use crate::converter::Converter;
use crate::copies::{copy_of, size_of};
use crate::names::Names;
use crate::setting::{Setting, one_more};
use core_form::{Core, Lambda, reads_nodes};
use icr_graph::{ContIds, Leaf, NodeKind, Operation};
use lisp_base::{Place, SymId, TypeSpec, Val};
use std::alloc::AllocError;

impl Converter {
    pub(crate) fn quote(
        &mut self,
        names: &Names,
        place: Place,
        value: Val,
        setting: Setting,
    ) -> Result<(), AllocError>
        ensures { OnOk result (Converts names.now setting (tree.Quote place value) self.old.built self.new.built) }
    {
        self.leaf(
            Leaf::Constant(value),
            one_more(setting.cost)?,
            place,
            setting,
        )?;
        Ok(())
    }

    pub(crate) fn local(
        &mut self,
        names: &Names,
        place: Place,
        number: u32,
        setting: Setting,
    ) -> Result<(), AllocError>
        ensures { OnOk result (Converts names.now setting (tree.Local place number) self.old.built self.new.built) }
    {
        let variable = names.variable(number)?;
        self.leaf(
            Leaf::Variable(variable),
            one_more(setting.cost)?,
            place,
            setting,
        )?;
        Ok(())
    }

    #[cycle(convert)]
    pub(crate) fn set_local(
        &mut self,
        names: &Names,
        place: Place,
        number: u32,
        value: &Core,
        setting: Setting,
    ) -> Result<(), AllocError>
        ensures { OnOk result (Converts names.now setting (tree.SetLocal place number (core_of value.now)) self.old.built self.new.built) }
    {
        let variable = names.variable(number)?;
        let word = names.facts.is_word(number);
        let value = self.value_of(names, value, word, one_more(setting.cost)?)?;
        self.give(NodeKind::Set { variable, value }, 0, place, setting)?;
        Ok(())
    }

    pub(crate) fn global(
        &mut self,
        names: &Names,
        place: Place,
        name: SymId,
        setting: Setting,
    ) -> Result<(), AllocError>
        ensures { OnOk result (Converts names.now setting (tree.Global place name) self.old.built self.new.built) }
    {
        self.leaf(Leaf::Global(name), one_more(setting.cost)?, place, setting)?;
        Ok(())
    }

    #[cycle(convert)]
    pub(crate) fn set_global(
        &mut self,
        names: &Names,
        place: Place,
        name: SymId,
        value: &Core,
        setting: Setting,
    ) -> Result<(), AllocError>
        ensures { OnOk result (Converts names.now setting (tree.SetGlobal place name (core_of value.now)) self.old.built self.new.built) }
    {
        let value = self.value_of(names, value, false, one_more(setting.cost)?)?;
        let operands = ContIds::one(self.alloc, value);
        let operation = Operation::SetGlobal(name);
        self.give(
            NodeKind::Combination {
                operation,
                operands,
            },
            0,
            place,
            setting,
        )?;
        Ok(())
    }

    pub(crate) fn function(
        &mut self,
        names: &Names,
        place: Place,
        lambda: &Lambda,
        setting: Setting,
    ) -> Result<(), AllocError>
        ensures { OnOk result (Converts names.now setting (tree.Function place (lambda_of lambda.now)) self.old.built self.new.built) }
    {
        reads_nodes();
        let made = names.function(lambda.number)?;
        self.leaf(
            Leaf::Functional(made.function),
            one_more(setting.cost)?,
            place,
            setting,
        )?;
        Ok(())
    }

    pub(crate) fn local_function(
        &mut self,
        names: &Names,
        place: Place,
        number: u32,
        setting: Setting,
    ) -> Result<(), AllocError>
        ensures { OnOk result (Converts names.now setting (tree.FunLocal place number) self.old.built self.new.built) }
    {
        let made = names.local_function(number)?;
        self.leaf(
            Leaf::Functional(made.function),
            one_more(setting.cost)?,
            place,
            setting,
        )?;
        Ok(())
    }

    pub(crate) fn global_function(
        &mut self,
        names: &Names,
        place: Place,
        name: SymId,
        setting: Setting,
    ) -> Result<(), AllocError>
        ensures { OnOk result (Converts names.now setting (tree.FunGlobal place name) self.old.built self.new.built) }
    {
        self.leaf(
            Leaf::GlobalFunction(name),
            one_more(setting.cost)?,
            place,
            setting,
        )?;
        Ok(())
    }

    #[cycle(convert)]
    pub(crate) fn set_function(
        &mut self,
        names: &Names,
        place: Place,
        name: SymId,
        value: &Core,
        setting: Setting,
    ) -> Result<(), AllocError>
        ensures { OnOk result (Converts names.now setting (tree.SetFun place name (core_of value.now)) self.old.built self.new.built) }
    {
        let value = self.value_of(names, value, false, one_more(setting.cost)?)?;
        let operands = ContIds::one(self.alloc, value);
        let operation = Operation::SetFunction(name);
        self.give(
            NodeKind::Combination {
                operation,
                operands,
            },
            0,
            place,
            setting,
        )?;
        Ok(())
    }

    #[cycle(convert)]
    pub(crate) fn is(
        &mut self,
        names: &Names,
        place: Place,
        value: &Core,
        spec: &TypeSpec,
        setting: Setting,
    ) -> Result<(), AllocError>
        ensures { OnOk result (Converts names.now setting (tree.Is place (spec_of spec.now) (core_of value.now)) self.old.built self.new.built) }
    {
        let size = size_of(spec)?;
        let written = copy_of(self.alloc, spec)?;
        let value = self.value_of(names, value, false, one_more(setting.cost)?)?;
        let operands = ContIds::one(self.alloc, value);
        let operation = Operation::Is(written);
        self.give(
            NodeKind::Combination {
                operation,
                operands,
            },
            size,
            place,
            setting,
        )?;
        Ok(())
    }

    #[cycle(convert)]
    pub(crate) fn the(
        &mut self,
        names: &Names,
        place: Place,
        value: &Core,
        spec: &TypeSpec,
        setting: Setting,
    ) -> Result<(), AllocError>
        ensures { OnOk result (Converts names.now setting (tree.The place (spec_of spec.now) (core_of value.now)) self.old.built self.new.built) }
    {
        let size = size_of(spec)?;
        let written = copy_of(self.alloc, spec)?;
        let cost = one_more(setting.cost)?;
        let value = self.typed_value_of(names, value, setting.word, cost, place, Some(written))?;
        let operands = ContIds::one(self.alloc, value);
        let operation = Operation::Pass;
        self.give(
            NodeKind::Combination {
                operation,
                operands,
            },
            size,
            place,
            setting,
        )?;
        Ok(())
    }
}
