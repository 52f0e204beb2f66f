// What goes with a node.

ghost use Rattle.std.specs.Prelude.{◌≡◌, ◌∷◌, [], map};
ghost use Rattle.icr_graph.specs.Lists as spec;
ghost use Rattle.ir_ids.specs.Entries.{map_of};
ghost use Rattle.icr_graph.specs.Lists.{changed, touched, listed};
ghost use Rattle.icr_graph.specs.Plain.{graph_of};
ghost use Rattle.icr_graph.specs.Kinds.{operands_of, arrivals_of, partners_of, extent_operands, leaving_operands, extent_arrivals};
ghost use Rattle.icr_graph.specs.Edits.{without_node, alone, not_used_by, not_taken_by, not_holding, no_arrival_of};

use crate::graph::Graph;
use crate::nodes::{Extent, Leaving, Node, NodeKind, Tag};
use crate::parts::{Block, Cont};
use ir_ids::{Arena, BlockId, ContId, Id, NodeId};

// The node is not the destination of a continuation.
fn clear_dest(conts: &mut Arena<ContId, Cont>, id: ContId, node: NodeId)
    ensures { map_of conts.new ≡ changed (not_taken_by node) id (map_of conts.old) }
{
    if let Some(cont) = conts.get_mut(id) {
        if let Some(dest) = cont.dest {
            if dest.number() == node.number() {
                cont.dest = None;
            }
        }
    }
}

// The node is not the destination of any of these continuations.
pub(crate) fn clear_dests(conts: &mut Arena<ContId, Cont>, ids: &[ContId], node: NodeId)
    ensures { map_of conts.new ≡ touched ids.now (not_taken_by node) (map_of conts.old) }
{
    for id in ids {
        clear_dest(conts, *id, node);
    }
}

// The node does not deliver to its continuation, if it has one.
fn remove_use(conts: &mut Arena<ContId, Cont>, cont: Option<ContId>, node: NodeId)
    ensures { map_of conts.new ≡ touched (listed cont) (not_used_by node) (map_of conts.old) }
{
    let Some(id) = cont else {
        return;
    };
    remove_use_of(conts, id, node);
}

// The node does not deliver to a continuation.
fn remove_use_of(conts: &mut Arena<ContId, Cont>, id: ContId, node: NodeId)
    ensures { map_of conts.new ≡ changed (not_used_by node) id (map_of conts.old) }
{
    if let Some(cont) = conts.get_mut(id) {
        cont.uses.remove(node);
    }
}

// The node is not in a block.
pub(crate) fn remove_node(blocks: &mut Arena<BlockId, Block>, id: BlockId, node: NodeId)
    ensures { map_of blocks.new ≡ changed (not_holding node) id (map_of blocks.old) }
{
    if let Some(block) = blocks.get_mut(id) {
        block.nodes.remove(node);
    }
}

// The exits of the node do not arrive at a block.
fn remove_arrival(blocks: &mut Arena<BlockId, Block>, id: BlockId, node: NodeId)
    ensures { map_of blocks.new ≡ changed (no_arrival_of node) id (map_of blocks.old) }
{
    if let Some(block) = blocks.get_mut(id) {
        block.arriving.remove(node);
    }
}

// The exits of the node arrive at none of these blocks.
pub(crate) fn remove_arrivals(blocks: &mut Arena<BlockId, Block>, ids: &[BlockId], node: NodeId)
    ensures { map_of blocks.new ≡ touched ids.now (no_arrival_of node) (map_of blocks.old) }
{
    for id in ids {
        remove_arrival(blocks, *id, node);
    }
}

// The node is not the destination of its operands.
pub(crate) fn clear_operands(conts: &mut Arena<ContId, Cont>, kind: &NodeKind, node: NodeId)
    ensures { map_of conts.new ≡ touched (operands_of kind.now) (not_taken_by node) (map_of conts.old) }
{
    match kind {
        NodeKind::Ref(_) => {}
        NodeKind::Set { value, .. } => clear_dests(conts, &[*value], node),
        NodeKind::If { test } => clear_dests(conts, &[*test], node),
        NodeKind::Combination { operands, .. } => clear_dests(conts, operands.as_slice(), node),
        NodeKind::MvCombination {
            function,
            operands,
            ..
        } => {
            clear_dest(conts, *function, node);
            clear_dests(conts, operands.as_slice(), node);
        }
        NodeKind::Bind { value, .. } => clear_dests(conts, &[*value], node),
        NodeKind::Return { value } => clear_dests(conts, &[*value], node),
        NodeKind::Entry { extent, .. } => clear_extent(conts, extent, node),
        NodeKind::Exit { leaving, .. } => clear_leaving(conts, *leaving, node),
    }
}

// The same for what an entry opens.
fn clear_extent(conts: &mut Arena<ContId, Cont>, extent: &Extent, node: NodeId)
    ensures { map_of conts.new ≡ touched (extent_operands extent.now) (not_taken_by node) (map_of conts.old) }
{
    match extent {
        Extent::Named { .. } => {}
        Extent::Tags { .. } => {}
        Extent::Catching { tag, .. } => clear_dests(conts, &[*tag], node),
        Extent::Guarded { .. } => {}
        Extent::Special { value, .. } => clear_dests(conts, &[*value], node),
        Extent::Keep { values } => clear_dests(conts, &[*values], node),
    }
}

// The same for how an exit leaves.
fn clear_leaving(conts: &mut Arena<ContId, Cont>, leaving: Leaving, node: NodeId)
    ensures { map_of conts.new ≡ touched (leaving_operands leaving) (not_taken_by node) (map_of conts.old) }
{
    match leaving {
        Leaving::Close => {}
        Leaving::Guard { values } => clear_dests(conts, &[values], node),
        Leaving::Resume => {}
        Leaving::Release => {}
        Leaving::ReturnFrom { values, .. } => clear_dests(conts, &[values], node),
        Leaving::Go { .. } => {}
        Leaving::Throw { tag, values } => clear_dests(conts, &[tag, values], node),
    }
}

// The exits of an entry arrive nowhere.
pub(crate) fn clear_arrivals(blocks: &mut Arena<BlockId, Block>, kind: &NodeKind, node: NodeId)
    ensures { map_of blocks.new ≡ touched (arrivals_of kind.now) (no_arrival_of node) (map_of blocks.old) }
{
    match kind {
        NodeKind::Entry { extent, .. } => match extent {
            Extent::Named { land, .. } => remove_arrivals(blocks, &[*land], node),
            Extent::Tags { tags, .. } => remove_tags(blocks, tags.as_slice(), node),
            Extent::Catching { land, .. } => remove_arrivals(blocks, &[*land], node),
            Extent::Guarded { cleanup } => remove_arrivals(blocks, &[*cleanup], node),
            Extent::Special { .. } => {}
            Extent::Keep { .. } => {}
        },
        _ => {}
    }
}

// The exits of the node arrive at none of these tags.
fn remove_tags(blocks: &mut Arena<BlockId, Block>, tags: &[Tag], node: NodeId)
    ensures { map_of blocks.new ≡ touched (map (λ t. t.block) tags.now) (no_arrival_of node) (map_of blocks.old) }
{
    for tag in tags {
        remove_arrival(blocks, tag.block, node);
    }
}

// The node is neither the entry of a node nor among its exits.
fn forget_node(nodes: &mut Arena<NodeId, Node>, id: NodeId, node: NodeId)
    ensures { map_of nodes.new ≡ changed (alone node) id (map_of nodes.old) }
{
    if let Some(other) = nodes.get_mut(id) {
        match &mut other.kind {
            NodeKind::Entry { exits, .. } => exits.remove(node),
            NodeKind::Exit { entry, .. } => *entry = other_than(*entry, node),
            _ => {}
        }
    }
}

// A node, but for one.
fn other_than(entry: Option<NodeId>, node: NodeId) -> Option<NodeId>
    ensures { result ≡ spec.other_than node entry }
{
    match entry {
        Some(id) if id.number() == node.number() => None,
        other => other,
    }
}

// The node is neither the entry nor among the exits of these.
fn forget_nodes(nodes: &mut Arena<NodeId, Node>, ids: &[NodeId], node: NodeId)
    ensures { map_of nodes.new ≡ touched ids.now (alone node) (map_of nodes.old) }
{
    for id in ids {
        forget_node(nodes, *id, node);
    }
}

// An exit and its entry don't name each other.
pub(crate) fn part(nodes: &mut Arena<NodeId, Node>, kind: &NodeKind, node: NodeId)
    ensures { map_of nodes.new ≡ touched (partners_of kind.now) (alone node) (map_of nodes.old) }
{
    match kind {
        NodeKind::Entry { exits, .. } => forget_nodes(nodes, exits.as_slice(), node),
        NodeKind::Exit {
            entry: Some(entry),
            ..
        } => forget_nodes(nodes, &[*entry], node),
        _ => {}
    }
}

// Takes a node out of the lists of its continuation and its block, and out of what else it names.
pub(crate) fn take_out(
    nodes: &mut Arena<NodeId, Node>,
    conts: &mut Arena<ContId, Cont>,
    blocks: &mut Arena<BlockId, Block>,
    node: &Node,
    id: NodeId,
)
    ensures nodes { map_of nodes.new ≡ touched (partners_of node.now.kind) (alone id) (map_of nodes.old) }
    ensures conts { map_of conts.new ≡ touched (listed node.now.cont) (not_used_by id) (touched (operands_of node.now.kind) (not_taken_by id) (map_of conts.old)) }
    ensures blocks { map_of blocks.new ≡ changed (not_holding id) node.now.block (touched (arrivals_of node.now.kind) (no_arrival_of id) (map_of blocks.old)) }
{
    part(nodes, &node.kind, id);
    clear_operands(conts, &node.kind, id);
    remove_use(conts, node.cont, id);
    clear_arrivals(blocks, &node.kind, id);
    remove_node(blocks, node.block, id);
}

impl Graph {
    // Removes a node and every link to it.
    pub(crate) fn remove(&mut self, id: NodeId)
        ensures { graph_of self.new ≡ without_node id (graph_of self.old) }
    {
        let Some(node) = self.nodes.retire(id) else {
            return;
        };
        take_out(
            &mut self.nodes,
            &mut self.conts,
            &mut self.blocks,
            &node,
            id,
        );
    }
}
