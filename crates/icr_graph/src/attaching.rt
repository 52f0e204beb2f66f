// Parts joined to what is there: deliveries, assertions, and exits with their entries.

ghost use Rattle.std.specs.Prelude.{◌≡◌, None, Some, IfErr, OnErr, OnOk};
ghost use Rattle.ir_ids.specs.Entries.{map_of};
ghost use Rattle.icr_graph.specs.Lists.{changed};
ghost use Rattle.icr_graph.specs.Plain.{graph_of};
ghost use Rattle.icr_graph.specs.Building.{delivering_to, used_by, delivered, asserting, with_assertion, naming_entry, naming_exit, leaving_entry, left_by_exit, paired};
ghost use Rattle.icr_graph.specs.Faults as stated;

use crate::faults::EditFault;
use crate::graph::Graph;
use crate::nodes::{Node, NodeKind};
use crate::parts::{Assertion, Cont};
use ir_ids::{Arena, ContId, NodeId};
use std::alloc::AllocError;

// A node is the last of the uses of a continuation.
fn add_use(conts: &mut Arena<ContId, Cont>, id: ContId, node: NodeId) -> Result<(), AllocError>
    ensures ok { OnOk result (map_of conts.new ≡ changed (used_by node) id (map_of conts.old)) }
    ensures err { OnErr result (map_of conts.new ≡ map_of conts.old) }
{
    if let Some(cont) = conts.get_mut(id) {
        cont.uses.push(node)?;
    }
    Ok(())
}

// A node delivers to a continuation.
fn set_cont(nodes: &mut Arena<NodeId, Node>, id: NodeId, cont: ContId)
    ensures { map_of nodes.new ≡ changed (delivering_to cont) id (map_of nodes.old) }
{
    if let Some(node) = nodes.get_mut(id) {
        node.cont = Some(cont);
    }
}

// An assertion is the last of a continuation.
fn add_assertion(
    conts: &mut Arena<ContId, Cont>,
    id: ContId,
    assertion: Assertion,
) -> Result<(), AllocError>
    ensures ok { OnOk result (map_of conts.new ≡ changed (asserting assertion) id (map_of conts.old)) }
    ensures err { OnErr result (map_of conts.new ≡ map_of conts.old) }
{
    if let Some(cont) = conts.get_mut(id) {
        cont.asserts.push(assertion)?;
    }
    Ok(())
}

// What an exit does, with an entry.
fn name_entry(kind: &mut NodeKind, id: NodeId)
    ensures { kind.new ≡ naming_entry id kind.old }
{
    match kind {
        NodeKind::Exit { entry, .. } => *entry = Some(id),
        _ => {}
    }
}

// What an entry does, with an exit more.
fn name_exit(kind: &mut NodeKind, id: NodeId) -> Result<(), AllocError>
    ensures ok { OnOk result (kind.new ≡ naming_exit id kind.old) }
    ensures err { OnErr result (kind.new ≡ kind.old) }
{
    match kind {
        NodeKind::Entry { exits, .. } => exits.push(id),
        _ => Ok(()),
    }
}

// An exit names an entry.
fn set_entry(nodes: &mut Arena<NodeId, Node>, exit: NodeId, entry: NodeId)
    ensures { map_of nodes.new ≡ changed (leaving_entry entry) exit (map_of nodes.old) }
{
    if let Some(node) = nodes.get_mut(exit) {
        name_entry(&mut node.kind, entry);
    }
}

// An exit is the last of an entry.
fn add_exit(nodes: &mut Arena<NodeId, Node>, entry: NodeId, exit: NodeId) -> Result<(), AllocError>
    ensures ok { OnOk result (map_of nodes.new ≡ changed (left_by_exit exit) entry (map_of nodes.old)) }
    ensures err { OnErr result (map_of nodes.new ≡ map_of nodes.old) }
{
    if let Some(node) = nodes.get_mut(entry) {
        name_exit(&mut node.kind, exit)?;
    }
    Ok(())
}

impl Graph {
    /// Lets a node deliver to a continuation, of whose uses it becomes the last.
    ///
    /// # Errors
    /// `NotLive` exactly where an identifier is not live, `Linked` exactly where the node delivers
    /// to a continuation; want of memory. The graph is then as before.
    pub fn deliver(&mut self, node: NodeId, cont: ContId) -> Result<(), EditFault>
        ensures allowed { OnOk result (stated.deliver_fault (graph_of self.old) node cont ≡ None) }
        ensures ok { OnOk result (graph_of self.new ≡ delivered node cont (graph_of self.old)) }
        ensures fault { IfErr result (λ fault. stated.Refused (stated.deliver_fault (graph_of self.old) node cont) fault) }
        ensures err { OnErr result (graph_of self.new ≡ graph_of self.old) }
    {
        if let Some(fault) = self.deliver_fault(node, cont) {
            return Err(fault);
        }
        add_use(&mut self.conts, cont, node)?;
        set_cont(&mut self.nodes, node, cont);
        Ok(())
    }

    /// Asserts something more of the first value that a continuation gets, behind what is asserted
    /// already.
    ///
    /// # Errors
    /// `NotLive` exactly where the continuation is not live; want of memory. The graph is then as
    /// before.
    pub fn assert_on(&mut self, cont: ContId, assertion: Assertion) -> Result<(), EditFault>
        ensures allowed { OnOk result (stated.assert_fault (graph_of self.old) cont ≡ None) }
        ensures ok { OnOk result (graph_of self.new ≡ with_assertion cont assertion (graph_of self.old)) }
        ensures fault { IfErr result (λ fault. stated.Refused (stated.assert_fault (graph_of self.old) cont) fault) }
        ensures err { OnErr result (graph_of self.new ≡ graph_of self.old) }
    {
        if let Some(fault) = self.assert_fault(cont) {
            return Err(fault);
        }
        add_assertion(&mut self.conts, cont, assertion)?;
        Ok(())
    }

    /// Gives an exit its entry, of whose exits it becomes the last.
    ///
    /// # Errors
    /// `NotLive` exactly where `exit` is not a live exit or `entry` not a live entry, `Linked`
    /// exactly where the exit has an entry; want of memory. The graph is then as before.
    pub fn pair(&mut self, exit: NodeId, entry: NodeId) -> Result<(), EditFault>
        ensures allowed { OnOk result (stated.pair_fault (graph_of self.old) exit entry ≡ None) }
        ensures ok { OnOk result (graph_of self.new ≡ paired exit entry (graph_of self.old)) }
        ensures fault { IfErr result (λ fault. stated.Refused (stated.pair_fault (graph_of self.old) exit entry) fault) }
        ensures err { OnErr result (graph_of self.new ≡ graph_of self.old) }
    {
        if let Some(fault) = self.pair_fault(exit, entry) {
            return Err(fault);
        }
        add_exit(&mut self.nodes, entry, exit)?;
        set_entry(&mut self.nodes, exit, entry);
        Ok(())
    }
}

impl Graph {
    // Why a node cannot deliver to a continuation.
    fn deliver_fault(&self, node: NodeId, cont: ContId) -> Option<EditFault>
        ensures { result ≡ stated.deliver_fault (graph_of self.now) node cont }
    {
        let Some(node) = self.nodes.get(node) else {
            return Some(EditFault::NotLive);
        };
        if !self.has_cont(cont) {
            Some(EditFault::NotLive)
        } else if node.cont.is_some() {
            Some(EditFault::Linked)
        } else {
            None
        }
    }

    // Why nothing can be asserted of a continuation.
    fn assert_fault(&self, cont: ContId) -> Option<EditFault>
        ensures { result ≡ stated.assert_fault (graph_of self.now) cont }
    {
        if self.has_cont(cont) {
            None
        } else {
            Some(EditFault::NotLive)
        }
    }

    // Whether there is such an entry.
    fn is_entry(&self, id: NodeId) -> bool
        ensures { result ≡ stated.is_entry (graph_of self.now) id }
    {
        match self.nodes.get(id) {
            Some(node) => matches!(&node.kind, NodeKind::Entry { .. }),
            None => false,
        }
    }

    // Why an exit cannot get an entry.
    fn pair_fault(&self, exit: NodeId, entry: NodeId) -> Option<EditFault>
        ensures { result ≡ stated.pair_fault (graph_of self.now) exit entry }
    {
        let Some(node) = self.nodes.get(exit) else {
            return Some(EditFault::NotLive);
        };
        let NodeKind::Exit { entry: named, .. } = &node.kind else {
            return Some(EditFault::NotLive);
        };
        if !self.is_entry(entry) {
            Some(EditFault::NotLive)
        } else if named.is_some() {
            Some(EditFault::Linked)
        } else {
            None
        }
    }
}
