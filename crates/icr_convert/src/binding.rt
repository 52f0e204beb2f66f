// The variables of a LET, and the functions of a LABELS.
ghost use Rattle.std.specs.Prelude.{◌≡◌, IfOk, OnOk};
ghost use Rattle.core_form.specs.Tree as tree;
ghost use Rattle.core_form.specs.Facts.{binding_parameters};
ghost use Rattle.core_form.specs.Reading.{core_of};
ghost use Rattle.core_form.specs.Step.{all_lexical as are_lexical};
ghost use Rattle.core_form.specs.ListReading.{bindings_list, definitions_list};
ghost use Rattle.form_graphs.specs.Standing.{left_after_bindings};
ghost use Rattle.icr_convert.specs.Converting.{Binds, BindsAll, Converts, TakesInitials, Unbinds, UnbindsAll};

use crate::converter::Converter;
use crate::names::Names;
use crate::setting::{Setting, one_more};
use core_form::{Binding, Core, Definition, Form, Variable, reads_nodes};
use icr_graph::{ContIds, Extent, Leaving, NodeIds, NodeKind};
use ir_ids::{ContId, NodeId};
use lisp_base::Place;
use std::alloc::AllocError;

/// Whether no variable of a LET is special.
fn all_lexical(bindings: &[Binding]) -> bool
    ensures { result ≡ are_lexical (binding_parameters (bindings_list bindings.now)) }
{
    for binding in bindings {
        if let Variable::Special(_) = binding.parameter.variable {
            return false;
        }
    }
    true
}

/// What is still to be charged after the values for the variables, of which the first takes it.
fn left_after(bindings: &[Binding], cost: u32) -> u32
    ensures { result ≡ left_after_bindings (bindings_list bindings.now) cost }
{
    if bindings.is_empty() { cost } else { 0 }
}

impl Converter {
    #[cycle(convert)]
    pub(crate) fn binding(
        &mut self,
        names: &Names,
        form: &Core,
        setting: Setting,
    ) -> Result<(), AllocError>
        ensures { OnOk result (Converts names.now setting (core_of form.now) self.old.built self.new.built) }
    {
        reads_nodes();
        let place = form.place;
        let Form::Let(bindings, body) = &form.form else {
            return Err(AllocError);
        };
        let bindings = bindings.as_slice();
        let cost = one_more(setting.cost)?;
        let values = self.initials(names, bindings, cost)?;
        let entries = self.bind_all(names, place, bindings, values.as_slice())?;
        let tail = all_lexical(bindings) && setting.tail;
        let part = setting.part(tail, setting.word, left_after(bindings, cost))?;
        self.convert(names, body, part)?;
        self.unbind_all(place, bindings, entries.as_slice())
    }

    /// Converts the values for the variables of a LET.
    #[cycle(convert)]
    pub(crate) fn initials(
        &mut self,
        names: &Names,
        bindings: &[Binding],
        cost: u32,
    ) -> Result<ContIds, AllocError>
        ensures { IfOk result (TakesInitials names.now (bindings_list bindings.now) cost self.old.built self.new.built) }
    {
        let mut cost = cost;
        let mut values = ContIds::new(self.alloc);
        for binding in bindings {
            let word = names.is_word(binding.parameter.variable);
            values.push(self.value_of(names, &binding.value, word, cost)?)?;
            cost = 0;
        }
        Ok(values)
    }

    /// Binds the variables of a LET to what continuations hold, each by a node.
    pub(crate) fn bind_all(
        &mut self,
        names: &Names,
        place: Place,
        bindings: &[Binding],
        values: &[ContId],
    ) -> Result<NodeIds, AllocError>
        ensures { OnOk result (BindsAll names.now place (bindings_list bindings.now) values.now self.old.built self.new.built) }
    {
        let mut entries = NodeIds::new(self.alloc);
        let mut rest = values;
        for binding in bindings {
            let [value, others @ ..] = rest else {
                return Err(AllocError);
            };
            entries.push(self.bind(names, place, binding.parameter.variable, *value)?)?;
            rest = others;
        }
        if rest.is_empty() {
            Ok(entries)
        } else {
            Err(AllocError)
        }
    }

    /// Binds a variable to what a continuation holds, by a node: an entry for a special variable.
    pub(crate) fn bind(
        &mut self,
        names: &Names,
        place: Place,
        variable: Variable,
        value: ContId,
    ) -> Result<NodeId, AllocError>
        ensures { OnOk result (Binds names.now place variable value self.old.built self.new.built) }
    {
        match variable {
            Variable::Lexical { number, .. } => {
                let variable = names.variable(number)?;
                self.plain(NodeKind::Bind { variable, value }, None, 0, place)
            }
            Variable::Special(name) => {
                let kind = NodeKind::Entry {
                    extent: Extent::Special { name, value },
                    exits: NodeIds::new(self.alloc),
                };
                self.plain(kind, None, 0, place)
            }
        }
    }

    /// Ends the extents of the variables of a LET, the last one's first.
    pub(crate) fn unbind_all(
        &mut self,
        place: Place,
        bindings: &[Binding],
        entries: &[NodeId],
    ) -> Result<(), AllocError>
        ensures { OnOk result (UnbindsAll place (bindings_list bindings.now) self.old.built self.new.built) }
    {
        for number in (0..bindings.len()).rev() {
            let entry = entries.get(number).copied();
            self.unbind(place, bindings[number].parameter.variable, entry)?;
        }
        Ok(())
    }

    /// Ends the extent of a variable that has one.
    pub(crate) fn unbind(
        &mut self,
        place: Place,
        variable: Variable,
        entry: Option<NodeId>,
    ) -> Result<(), AllocError>
        ensures { OnOk result (Unbinds place variable self.old.built self.new.built) }
    {
        match variable {
            Variable::Lexical { .. } => Ok(()),
            Variable::Special(_) => self.exit(Leaving::Close, entry, place),
        }
    }

    /// Converts the body of a LABELS, whose functions have code of their own.
    #[cycle(convert)]
    pub(crate) fn labels(
        &mut self,
        names: &Names,
        place: Place,
        body: &Core,
        definitions: &[Definition],
        setting: Setting,
    ) -> Result<(), AllocError>
        ensures { OnOk result (Converts names.now setting (tree.Labels place (definitions_list definitions.now) (core_of body.now)) self.old.built self.new.built) }
    {
        let cost = one_more(setting.cost)?;
        let charges = setting.charges(cost)?;
        let part = Setting {
            cost,
            levels: charges.levels,
            boxing: charges.boxing,
            ..setting
        };
        self.convert(names, body, part)
    }
}
