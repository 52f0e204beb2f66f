// One continuation taken in the place of another.

ghost use Rattle.std.specs.Prelude.{◌≡◌, false, ◌∷◌, [], None, Some, IfErr, OnErr, OnOk};
ghost use Rattle.ir_ids.specs.Entries.{map_of};
ghost use Rattle.icr_graph.specs.Lists.{changed, renumber};
ghost use Rattle.icr_graph.specs.Plain.{graph_of, dest_of};
ghost use Rattle.icr_graph.specs.Kinds.{taking, extent_taking, leaving_taking};
ghost use Rattle.icr_graph.specs.Edits.{taken_by, taking_instead, substituted_at};
ghost use Rattle.icr_graph.specs.Faults as stated;

use crate::faults::EditFault;
use crate::graph::Graph;
use crate::nodes::{Extent, Leaving, Node, NodeKind};
use crate::parts::Cont;
use ir_ids::{Arena, ContId, Id, NodeId};

// A continuation, or the new one in the place of the old.
fn renamed(id: ContId, old: ContId, new: ContId) -> ContId
    ensures { result ≡ renumber old new id }
{
    if id.number() == old.number() { new } else { id }
}

// What an entry opens, with another continuation in the place of one.
fn rename_extent(extent: &mut Extent, old: ContId, new: ContId)
    ensures { extent.new ≡ extent_taking old new extent.old }
{
    match extent {
        Extent::Catching { tag, .. } => *tag = renamed(*tag, old, new),
        Extent::Special { value, .. } => *value = renamed(*value, old, new),
        Extent::Keep { values } => *values = renamed(*values, old, new),
        Extent::Named { .. } => {}
        Extent::Tags { .. } => {}
        Extent::Guarded { .. } => {}
    }
}

// How an exit leaves, with another continuation in the place of one.
fn renamed_leaving(leaving: Leaving, old: ContId, new: ContId) -> Leaving
    ensures { result ≡ leaving_taking old new leaving }
{
    match leaving {
        Leaving::Guard { values } => Leaving::Guard {
            values: renamed(values, old, new),
        },
        Leaving::ReturnFrom { name, values } => Leaving::ReturnFrom {
            name,
            values: renamed(values, old, new),
        },
        Leaving::Throw { tag, values } => Leaving::Throw {
            tag: renamed(tag, old, new),
            values: renamed(values, old, new),
        },
        Leaving::Close => Leaving::Close,
        Leaving::Resume => Leaving::Resume,
        Leaving::Release => Leaving::Release,
        Leaving::Go { tag, name } => Leaving::Go { tag, name },
    }
}

// What a node does, with another continuation in the place of one.
fn rename_operand(kind: &mut NodeKind, old: ContId, new: ContId)
    ensures { kind.new ≡ taking old new kind.old }
{
    match kind {
        NodeKind::Ref(_) => {}
        NodeKind::Set { value, .. } => *value = renamed(*value, old, new),
        NodeKind::If { test } => *test = renamed(*test, old, new),
        NodeKind::Combination { operands, .. } => operands.rename(old, new),
        NodeKind::MvCombination {
            function,
            operands,
            ..
        } => {
            *function = renamed(*function, old, new);
            operands.rename(old, new);
        }
        NodeKind::Bind { value, .. } => *value = renamed(*value, old, new),
        NodeKind::Return { value } => *value = renamed(*value, old, new),
        NodeKind::Entry { extent, .. } => rename_extent(extent, old, new),
        NodeKind::Exit { leaving, .. } => *leaving = renamed_leaving(*leaving, old, new),
    }
}

// A node takes another continuation in the place of one.
fn take_instead(nodes: &mut Arena<NodeId, Node>, id: NodeId, old: ContId, new: ContId)
    ensures { map_of nodes.new ≡ changed (taking_instead old new) id (map_of nodes.old) }
{
    if let Some(node) = nodes.get_mut(id) {
        rename_operand(&mut node.kind, old, new);
    }
}

// A continuation has this destination, or none.
pub(crate) fn set_dest(conts: &mut Arena<ContId, Cont>, id: ContId, dest: Option<NodeId>)
    ensures { map_of conts.new ≡ changed (taken_by dest) id (map_of conts.old) }
{
    if let Some(cont) = conts.get_mut(id) {
        cont.dest = dest;
    }
}

impl Graph {
    /// Makes `new` the operand of a node in the place of `old`, which then has no destination. It
    /// looks at the operands of that node, and takes no memory.
    ///
    /// # Errors
    /// `NotLive` exactly where an identifier is not live, `NotLinked` exactly where `old` has no
    /// destination, `StillUsed` exactly where `new` has a destination or both are one. The graph
    /// is then as before.
    pub fn substitute_use(&mut self, old: ContId, new: ContId) -> Result<(), EditFault>
        ensures allowed { OnOk result (stated.substitute_fault (graph_of self.old) old new ≡ None) }
        ensures ok { OnOk result (graph_of self.new ≡ substituted_at (dest_of (graph_of self.old) old) old new (graph_of self.old)) }
        ensures fault { IfErr result (λ fault. stated.substitute_fault (graph_of self.old) old new ≡ Some fault) }
        ensures err { OnErr result (self.new ≡ self.old) }
    {
        if let Some(fault) = self.substitute_fault(old, new) {
            return Err(fault);
        }
        let dest = self.dest(old);
        take_instead(&mut self.nodes, dest, old, new);
        set_dest(&mut self.conts, old, None);
        set_dest(&mut self.conts, new, Some(dest));
        Ok(())
    }

    // The destination of a continuation that has one.
    fn dest(&self, id: ContId) -> NodeId
        requires { stated.is_empty (dest_of (graph_of self.now) id) ≡ false }
        ensures { dest_of (graph_of self.now) id ≡ result ∷ [] }
    {
        match self.conts.get(id) {
            Some(
                Cont {
                    dest: Some(dest),
                    ..
                },
            ) => *dest,
            _ => unreachable!(),
        }
    }
}
