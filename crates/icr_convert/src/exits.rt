// Exits: RETURN-FROM, GO and THROW.
ghost use Rattle.std.specs.Prelude.{OnOk};
ghost use Rattle.core_form.specs.Tree as tree;
ghost use Rattle.core_form.specs.Reading.{core_of};
ghost use Rattle.icr_convert.specs.Converting.{Converts};

use crate::converter::Converter;
use crate::names::Names;
use crate::setting::{Setting, charge, one_more};
use core_form::{Core, Form};
use icr_graph::Leaving;
use lisp_base::Place;
use std::alloc::AllocError;

impl Converter {
    #[cycle(convert)]
    pub(crate) fn return_from(
        &mut self,
        names: &Names,
        place: Place,
        number: u32,
        value: &Core,
        setting: Setting,
    ) -> Result<(), AllocError>
        ensures { OnOk result (Converts names.now setting (tree.ReturnFrom place number (core_of value.now)) self.old.built self.new.built) }
    {
        let Some(name) = names.texts.block_name(number) else {
            return Err(AllocError);
        };
        let values = self.value_of(names, value, false, one_more(setting.cost)?)?;
        let entry = self.entry_of(names, number)?;
        self.exit(Leaving::ReturnFrom { name, values }, Some(entry), place)
    }

    pub(crate) fn go(
        &mut self,
        names: &Names,
        place: Place,
        tag: u32,
        setting: Setting,
    ) -> Result<(), AllocError>
        ensures { OnOk result (Converts names.now setting (tree.Go place tag) self.old.built self.new.built) }
    {
        let Some(text) = names.texts.tag(tag) else {
            return Err(AllocError);
        };
        let entry = self.entry_of(names, text.tagbody)?;
        let name = text.name;
        let charges = charge(one_more(setting.cost)?);
        self.built.exit(Leaving::Go { tag, name }, Some(entry), None, place, charges)
    }

    #[cycle(convert)]
    pub(crate) fn throw(
        &mut self,
        names: &Names,
        form: &Core,
        setting: Setting,
    ) -> Result<(), AllocError>
        ensures { OnOk result (Converts names.now setting (core_of form.now) self.old.built self.new.built) }
    {
        let place = form.place;
        let Form::Throw(tag, value) = &form.form else {
            return Err(AllocError);
        };
        let tag = self.value_of(names, tag, false, one_more(setting.cost)?)?;
        let values = self.value_of(names, value, false, 0)?;
        self.exit(Leaving::Throw { tag, values }, None, place)
    }
}
