// Forms that exits leave: BLOCK and CATCH.
ghost use Rattle.std.specs.Prelude.{IfOk, OnOk};
ghost use Rattle.core_form.specs.Tree as tree;
ghost use Rattle.core_form.specs.Reading.{core_of};
ghost use Rattle.icr_convert.specs.Converting.{Converts, Leaves};

use crate::converter::Converter;
use crate::names::Names;
use crate::numbered::put;
use crate::setting::{Setting, one_more};
use core_form::{Core, Form};
use icr_graph::{Extent, Leaving, NodeIds, NodeKind};
use ir_ids::NodeId;
use lisp_base::{Place, SymId};
use std::alloc::AllocError;

impl Converter {
    #[cycle(convert)]
    pub(crate) fn block(
        &mut self,
        names: &Names,
        place: Place,
        number: u32,
        name: SymId,
        body: &Core,
        setting: Setting,
    ) -> Result<(), AllocError>
        ensures { OnOk result (Converts names.now setting (tree.Block place number name (core_of body.now)) self.old.built self.new.built) }
    {
        let variable = names.variable(number)?;
        let land = self.built.block()?;
        let kind = NodeKind::Entry {
            extent: Extent::Named { variable, land },
            exits: NodeIds::new(self.alloc),
        };
        let entry = self.give(kind, one_more(setting.cost)?, place, setting)?;
        put(&mut self.entries, number, entry)?;
        let tail = !names.facts.is_cell(number) && setting.tail;
        self.convert(names, body, setting.part(tail, false, 0)?)?;
        self.exit(Leaving::Close, Some(entry), place)?;
        self.built.go_on(land, land)
    }

    #[cycle(convert)]
    pub(crate) fn catch(
        &mut self,
        names: &Names,
        form: &Core,
        setting: Setting,
    ) -> Result<(), AllocError>
        ensures { OnOk result (Converts names.now setting (core_of form.now) self.old.built self.new.built) }
    {
        let place = form.place;
        let Form::Catch(tag, body) = &form.form else {
            return Err(AllocError);
        };
        let tag = self.value_of(names, tag, false, one_more(setting.cost)?)?;
        let land = self.built.block()?;
        let kind = NodeKind::Entry {
            extent: Extent::Catching { tag, land },
            exits: NodeIds::new(self.alloc),
        };
        let entry = self.give(kind, 0, place, setting)?;
        self.convert(names, body, setting.part(false, false, 0)?)?;
        self.exit(Leaving::Close, Some(entry), place)?;
        self.built.go_on(land, land)
    }

    /// The entry of a block or tagbody that was begun, by its number.
    ///
    /// # Errors
    /// Told as want of memory: none was begun, as in no checked form.
    pub(crate) fn entry_of(&self, names: &Names, number: u32) -> Result<NodeId, AllocError>
        ensures { IfOk result (Leaves names.now number self.now.built) }
    {
        let variable = names.variable(number)?;
        let Some(Some(entry)) = self.entries.get(number as usize) else {
            return Err(AllocError);
        };
        match self.built.extent_variable(*entry) {
            Some(opened) if opened == variable => Ok(*entry),
            _ => Err(AllocError),
        }
    }
}
