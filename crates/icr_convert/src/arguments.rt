// Operands, and what primitives and calls with values do with them.
ghost use Rattle.std.specs.Prelude.{◌≡◌, IfOk, OnOk, Some, None, option_map, map, take, drop};
ghost use Rattle.lisp_base.specs.Rows.{prim_type_spec};
ghost use Rattle.lisp_base.specs.Reading.{spec_of};
ghost use Rattle.core_form.specs.Tree as tree;
ghost use Rattle.core_form.specs.Arithmetic.{arithmetic};
ghost use Rattle.core_form.specs.Reading.{cores_list};
ghost use Rattle.form_graphs.specs.Standing.{next_type, left_after as charge_left};
ghost use Rattle.icr_convert.specs.Converting.{Converts, Gathers, NewConts, Releases, ReleasesTo, TakesAll, type_at};

use crate::converter::Converter;
use crate::names::Names;
use crate::setting::{Setting, charge, one_more};
use core_form::Core;
use icr_graph::{ContIds, Extent, Leaving, NodeIds, NodeKind, Operation};
use ir_ids::{ContId, NodeId};
use lisp_base::{Place, PrimRow, PrimType, Primitive, TypeSpec, prim_spec};
use std::alloc::{AllocError, Global};

/// Whether a primitive takes and gives words.
fn takes_words(primitive: Primitive) -> bool
    ensures { result ≡ arithmetic primitive }
{
    use Primitive::*;
    matches!(
        primitive,
        Add | Subtract
            | Multiply
            | Truncate
            | Floor
            | Rem
            | Mod
            | Equal
            | NotEqual
            | Less
            | Greater
            | LessOrEqual
            | GreaterOrEqual
            | LogAnd
            | LogIor
            | LogXor
            | LogNot
            | Ash
    )
}

/// The type of an argument by a primitive's row: that of its place, else that of any further
/// arguments.
fn type_in(row: PrimRow, place: usize) -> Option<PrimType>
    ensures { option_map prim_type_spec result ≡ next_type (drop place (map prim_type_spec (take row.count row.args))) (option_map prim_type_spec row.rest) }
{
    if place < row.count as usize
        && let Some(kind) = row.args.get(place)
    {
        return Some(*kind);
    }
    row.rest
}

/// The type of an operand of a primitive; None where it may be anything.
fn operand_type(
    alloc: Global,
    primitive: Option<Primitive>,
    place: usize,
) -> Result<Option<TypeSpec>, AllocError>
    ensures { IfOk result (λ t. option_map spec_of t ≡ type_at primitive place) }
{
    let Some(primitive) = primitive else {
        return Ok(None);
    };
    match type_in(primitive.row(), place) {
        Some(kind) => Ok(Some(prim_spec(alloc, kind)?)),
        None => Ok(None),
    }
}

/// What is still to be charged after parts of which the first takes it.
pub(crate) fn left_after(parts: &[Core], cost: u32) -> u32
    ensures { result ≡ charge_left (cores_list parts.now) cost }
{
    if parts.is_empty() { cost } else { 0 }
}

impl Converter {
    /// Converts operands from left to right, with the types of a primitive.
    #[cycle(convert)]
    pub(crate) fn operands(
        &mut self,
        names: &Names,
        parts: &[Core],
        primitive: Option<Primitive>,
        word: bool,
        cost: u32,
        place: Place,
    ) -> Result<ContIds, AllocError>
        ensures { IfOk result (TakesAll names.now word place primitive (cores_list parts.now) cost self.old.built self.new.built) }
    {
        let mut left = cost;
        let mut operands = ContIds::new(self.alloc);
        for (number, part) in parts.iter().enumerate() {
            let spec = operand_type(self.alloc, primitive, number)?;
            operands.push(self.typed_value_of(names, part, word, left, place, spec)?)?;
            left = 0;
        }
        Ok(operands)
    }

    #[cycle(convert)]
    pub(crate) fn primitive(
        &mut self,
        names: &Names,
        place: Place,
        primitive: Primitive,
        parts: &[Core],
        setting: Setting,
    ) -> Result<(), AllocError>
        ensures { OnOk result (Converts names.now setting (tree.Primitive place primitive (cores_list parts.now)) self.old.built self.new.built) }
    {
        let cost = one_more(setting.cost)?;
        let word = takes_words(primitive);
        let operands = self.operands(names, parts, Some(primitive), word, cost, place)?;
        let left = left_after(parts, cost);
        let operation = Operation::Primitive(primitive);
        self.give(
            NodeKind::Combination {
                operation,
                operands,
            },
            left,
            place,
            setting,
        )?;
        Ok(())
    }

    #[cycle(convert)]
    pub(crate) fn values(
        &mut self,
        names: &Names,
        place: Place,
        parts: &[Core],
        setting: Setting,
    ) -> Result<(), AllocError>
        ensures { OnOk result (Converts names.now setting (tree.Values place (cores_list parts.now)) self.old.built self.new.built) }
    {
        let cost = one_more(setting.cost)?;
        let operands = self.operands(names, parts, None, false, cost, place)?;
        let left = left_after(parts, cost);
        let operation = Operation::Values;
        self.give(
            NodeKind::Combination {
                operation,
                operands,
            },
            left,
            place,
            setting,
        )?;
        Ok(())
    }

    /// Converts forms all of whose values are kept, each by an entry.
    #[cycle(convert)]
    pub(crate) fn gather(
        &mut self,
        names: &Names,
        place: Place,
        parts: &[Core],
    ) -> Result<NodeIds, AllocError>
        ensures { OnOk result (Gathers names.now place (cores_list parts.now) self.old.built self.new.built) }
    {
        let mut entries = NodeIds::new(self.alloc);
        for part in parts {
            let values = self.value_of(names, part, false, 0)?;
            let kind = NodeKind::Entry {
                extent: Extent::Keep { values },
                exits: NodeIds::new(self.alloc),
            };
            entries.push(self.plain(kind, None, 0, place)?)?;
        }
        Ok(entries)
    }

    /// Releases the kept values of so many forms, the last form's first, each to a continuation of
    /// its own.
    pub(crate) fn release_all(
        &mut self,
        place: Place,
        parts: &[Core],
        entries: &[NodeId],
    ) -> Result<ContIds, AllocError>
        ensures { IfOk result (Releases place (cores_list parts.now) self.old.built self.new.built) }
    {
        let operands = self.conts_for(parts)?;
        self.release_to(place, operands.as_slice(), entries)?;
        Ok(operands)
    }

    /// Adds a continuation for each of these forms.
    fn conts_for(&mut self, parts: &[Core]) -> Result<ContIds, AllocError>
        ensures { IfOk result (NewConts (cores_list parts.now) self.old.built self.new.built) }
    {
        let mut operands = ContIds::new(self.alloc);
        for _part in parts {
            operands.push(self.built.cont()?)?;
        }
        Ok(operands)
    }

    /// Releases kept values to these continuations, the last one's first.
    fn release_to(
        &mut self,
        place: Place,
        operands: &[ContId],
        entries: &[NodeId],
    ) -> Result<(), AllocError>
        ensures { OnOk result (ReleasesTo place operands.now self.old.built self.new.built) }
    {
        for number in (0..operands.len()).rev() {
            let entry = entries.get(number).copied();
            let to = operands[number];
            self.built
                .exit(Leaving::Release, entry, Some(to), place, charge(0))?;
        }
        Ok(())
    }
}
