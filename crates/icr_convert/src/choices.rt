// Choices, and forms one after another.
ghost use Rattle.std.specs.Prelude.{IfOk, OnOk, take};
ghost use Rattle.core_form.specs.Tree as tree;
ghost use Rattle.core_form.specs.Reading.{core_of, cores_list};
ghost use Rattle.icr_convert.specs.Converting.{Converts, ConvertsAll, GivesNil, GoesBefore};

use crate::converter::Converter;
use crate::names::Names;
use crate::setting::{Setting, one_more};
use core_form::{Core, Form};
use icr_graph::{Charges, Leaf, NodeKind};
use lisp_base::{NIL, Place, Val};
use std::alloc::AllocError;

impl Converter {
    #[cycle(convert)]
    pub(crate) fn choice(
        &mut self,
        names: &Names,
        form: &Core,
        setting: Setting,
    ) -> Result<(), AllocError>
        ensures { OnOk result (Converts names.now setting (core_of form.now) self.old.built self.new.built) }
    {
        let place = form.place;
        let Form::If(test, yes, no) = &form.form else {
            return Err(AllocError);
        };
        let cost = one_more(setting.cost)?;
        let test = self.value_of(names, test, false, cost)?;
        self.plain(NodeKind::If { test }, None, 0, place)?;
        let yes_block = self.built.block()?;
        let no_block = self.built.block()?;
        let join = self.built.block()?;
        self.built.fork(yes_block, no_block)?;
        let arm = setting.part(setting.tail, false, 0)?;
        self.convert(names, yes, arm)?;
        self.built.go_on(join, no_block)?;
        let other_arm = setting.part(setting.tail, false, 0)?;
        self.convert(names, no, other_arm)?;
        self.built.go_on(join, join)
    }

    #[cycle(convert)]
    pub(crate) fn sequence(
        &mut self,
        names: &Names,
        place: Place,
        parts: &[Core],
        setting: Setting,
    ) -> Result<(), AllocError>
        ensures { OnOk result (Converts names.now setting (tree.Progn place (cores_list parts.now)) self.old.built self.new.built) }
    {
        let cost = one_more(setting.cost)?;
        let charges = setting.charges(cost)?;
        let part = Setting {
            cost,
            levels: charges.levels,
            boxing: charges.boxing,
            ..setting
        };
        self.all(names, place, parts, part)
    }

    /// Converts forms of which the last gives the values; without a form NIL.
    #[cycle(convert)]
    pub(crate) fn all(
        &mut self,
        names: &Names,
        place: Place,
        parts: &[Core],
        setting: Setting,
    ) -> Result<(), AllocError>
        ensures { OnOk result (ConvertsAll names.now setting place (cores_list parts.now) self.old.built self.new.built) }
    {
        if parts.is_empty() {
            return self.nothing(place, setting);
        }
        let count = parts.len() - 1;
        let cost = self.effects(names, parts, count, setting.cost)?;
        self.convert(names, &parts[count], Setting { cost, ..setting })
    }

    /// Converts the first of some forms, so many, whose values nothing takes, and gives what is still
    /// to be charged after them.
    #[cycle(convert)]
    pub(crate) fn effects(
        &mut self,
        names: &Names,
        parts: &[Core],
        count: usize,
        cost: u32,
    ) -> Result<u32, AllocError>
        ensures { IfOk result (GoesBefore names.now (cores_list (take count parts.now)) cost self.old.built self.new.built) }
    {
        let mut left = cost;
        for number in 0..count {
            if number >= parts.len() {
                return Err(AllocError);
            }
            self.convert(names, &parts[number], Setting::effect(left))?;
            left = 0;
        }
        Ok(left)
    }

    /// Gives NIL, charged as the setting says.
    pub(crate) fn nothing(&mut self, place: Place, setting: Setting) -> Result<(), AllocError>
        ensures { OnOk result (GivesNil setting place self.old.built self.new.built) }
    {
        let charges = Charges {
            cost: setting.cost,
            levels: setting.levels,
            boxing: setting.boxing,
        };
        let kind = NodeKind::Ref(Leaf::Constant(Val::Sym(NIL)));
        self.built.node(kind, setting.to, place, charges)?;
        Ok(())
    }
}
