// The converter: a graph that is being built, and where the entries of its extents stand.
ghost use Rattle.std.specs.Prelude.{◌≡◌, [], IfOk, OnOk, option_map, Some, None};
ghost use Rattle.lisp_base.specs.Reading.{spec_of};
ghost use Rattle.icr_graph.specs.Kinds.{partners_of};
ghost use Rattle.icr_graph.specs.declared.nodes.NodeKind.TheVariants as kinds;
ghost use Rattle.core_form.specs.Reading.{core_of};
ghost use Rattle.graph_building.specs.Built as built;
ghost use Rattle.icr_convert.specs.Converting.{cost_alone, Takes, TakesTyped, TypedCont, through_charges};

use crate::names::Names;
use crate::setting::{Setting, charge};
use core_form::Core;
use graph_building::Builder;
use icr_graph::{Leaf, Leaving, NodeKind};
use ir_ids::{ContId, NodeId};
use lisp_base::{Place, TypeSpec};
use std::alloc::{AllocError, Global};

/// Makes a graph node by node.
#[derive(Drop)]
pub(crate) struct Converter {
    pub alloc: Global,
    pub built: Builder,
    /// The entry of each block or tagbody that was begun, by its number.
    pub entries: Vec<Option<NodeId>>,
}

impl Converter {
    /// Adds the node that gives a form's values.
    pub(crate) fn give(
        &mut self,
        kind: NodeKind,
        cost: u32,
        place: Place,
        setting: Setting,
    ) -> Result<NodeId, AllocError>
        requires { partners_of kind ≡ [] }
        ensures { IfOk result (built.NewNode kind setting.to place (through_charges setting cost) self.old.built self.new.built) }
    {
        let charges = setting.charges(cost)?;
        self.built.node(kind, setting.to, place, charges)
    }

    /// Adds a node whose values no form passes on.
    pub(crate) fn plain(
        &mut self,
        kind: NodeKind,
        to: Option<ContId>,
        cost: u32,
        place: Place,
    ) -> Result<NodeId, AllocError>
        requires { partners_of kind ≡ [] }
        ensures { IfOk result (built.NewNode kind to place (cost_alone cost) self.old.built self.new.built) }
    {
        self.built.node(kind, to, place, charge(cost))
    }

    /// Adds the node of a leaf that gives a form's values.
    pub(crate) fn leaf(
        &mut self,
        leaf: Leaf,
        cost: u32,
        place: Place,
        setting: Setting,
    ) -> Result<NodeId, AllocError>
        ensures { IfOk result (built.NewNode (kinds.Ref leaf) setting.to place (through_charges setting cost) self.old.built self.new.built) }
    {
        self.give(NodeKind::Ref(leaf), cost, place, setting)
    }

    /// Adds an exit that delivers nothing and costs nothing.
    pub(crate) fn exit(
        &mut self,
        leaving: Leaving,
        entry: Option<NodeId>,
        place: Place,
    ) -> Result<(), AllocError>
        ensures { OnOk result (built.NewExit leaving entry None place (cost_alone 0) self.old.built self.new.built) }
    {
        self.built.exit(leaving, entry, None, place, charge(0))
    }

    /// Converts a form whose values go to a new continuation.
    #[cycle(convert)]
    pub(crate) fn value_of(
        &mut self,
        names: &Names,
        form: &Core,
        word: bool,
        cost: u32,
    ) -> Result<ContId, AllocError>
        ensures { IfOk result (Takes names.now word (core_of form.now) cost self.old.built self.new.built) }
    {
        let to = self.built.cont()?;
        self.convert(names, form, Setting::value(word, cost, to))?;
        Ok(to)
    }

    /// Adds a continuation, where the type of values is tested if they are to be of one.
    fn typed_cont(&mut self, spec: Option<TypeSpec>, place: Place) -> Result<ContId, AllocError>
        ensures { IfOk result (TypedCont place (option_map spec_of spec) self.old.built self.new.built) }
    {
        match spec {
            Some(spec) => self.built.asserted_cont(spec, place),
            None => self.built.cont(),
        }
    }

    /// Converts a form whose values go to a new continuation, where their type is tested.
    #[cycle(convert)]
    pub(crate) fn typed_value_of(
        &mut self,
        names: &Names,
        form: &Core,
        word: bool,
        cost: u32,
        place: Place,
        spec: Option<TypeSpec>,
    ) -> Result<ContId, AllocError>
        ensures { IfOk result (TakesTyped names.now word place (option_map spec_of spec) (core_of form.now) cost self.old.built self.new.built) }
    {
        let to = self.typed_cont(spec, place)?;
        self.convert(names, form, Setting::value(word, cost, to))?;
        Ok(to)
    }
}
