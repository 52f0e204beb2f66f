// Cleanup forms, and values that are kept while another form runs.
ghost use Rattle.std.specs.Prelude.{OnOk, Some};
ghost use Rattle.core_form.specs.Reading.{core_of};
ghost use Rattle.graph_building.specs.Built.{NewExit};
ghost use Rattle.icr_convert.specs.Converting.{Converts, through_charges};

use crate::converter::Converter;
use crate::names::Names;
use crate::setting::{Setting, one_more};
use core_form::{Core, Form};
use icr_graph::{Extent, Leaving, NodeIds, NodeKind};
use ir_ids::NodeId;
use lisp_base::Place;
use std::alloc::AllocError;

impl Converter {
    #[cycle(convert)]
    pub(crate) fn unwind(
        &mut self,
        names: &Names,
        form: &Core,
        setting: Setting,
    ) -> Result<(), AllocError>
        ensures { OnOk result (Converts names.now setting (core_of form.now) self.old.built self.new.built) }
    {
        let place = form.place;
        let Form::Unwind(body, cleanup) = &form.form else {
            return Err(AllocError);
        };
        let begins = self.built.block()?;
        let kind = NodeKind::Entry {
            extent: Extent::Guarded { cleanup: begins },
            exits: NodeIds::new(self.alloc),
        };
        let entry = self.plain(kind, None, one_more(setting.cost)?, place)?;
        let values = self.value_of(names, body, false, 0)?;
        self.exit(Leaving::Guard { values }, Some(entry), place)?;
        self.built.begin(begins)?;
        self.convert(names, cleanup, Setting::effect(0))?;
        self.give_by_exit(Leaving::Resume, entry, place, setting)
    }

    #[cycle(convert)]
    pub(crate) fn values_before(
        &mut self,
        names: &Names,
        form: &Core,
        setting: Setting,
    ) -> Result<(), AllocError>
        ensures { OnOk result (Converts names.now setting (core_of form.now) self.old.built self.new.built) }
    {
        let place = form.place;
        let Form::MvProg1(first, then) = &form.form else {
            return Err(AllocError);
        };
        let values = self.value_of(names, first, false, one_more(setting.cost)?)?;
        let kind = NodeKind::Entry {
            extent: Extent::Keep { values },
            exits: NodeIds::new(self.alloc),
        };
        let entry = self.plain(kind, None, 0, place)?;
        self.convert(names, then, Setting::effect(0))?;
        self.give_by_exit(Leaving::Release, entry, place, setting)
    }

    /// Adds the exit that gives a form's values, those that were kept.
    pub(crate) fn give_by_exit(
        &mut self,
        leaving: Leaving,
        entry: NodeId,
        place: Place,
        setting: Setting,
    ) -> Result<(), AllocError>
        ensures { OnOk result (NewExit leaving (Some entry) setting.to place (through_charges setting 0) self.old.built self.new.built) }
    {
        let charges = setting.charges(0)?;
        self.built
            .exit(leaving, Some(entry), setting.to, place, charges)
    }
}
