// Nodes added.

ghost use Rattle.std.specs.Prelude.{◌≡◌, [], ◌∷◌, map, None, Some, IfErr, IfOk, OnErr, OnOk};
ghost use Rattle.ir_ids.specs.Entries.{map_of};
ghost use Rattle.icr_graph.specs.Lists.{changed, touched, listed};
ghost use Rattle.icr_graph.specs.Plain.{graph_of};
ghost use Rattle.icr_graph.specs.Kinds.{operands_of, extent_operands, leaving_operands, arrivals_of, partners_of, variables_of, functions_of};
ghost use Rattle.icr_graph.specs.Edits.{taken_by};
ghost use Rattle.icr_graph.specs.Building.{holding, with_number, arriving_from, with_node, IsNew};
ghost use Rattle.icr_graph.specs.Whole.{are_variables, are_functions};
ghost use Rattle.icr_graph.specs.Faults as stated;

use crate::faults::EditFault;
use crate::graph::Graph;
use crate::links::Links;
use crate::nodes::{
    BlockIds, Charges, ContIds, Extent, Leaf, Leaving, Node, NodeIds, NodeKind, Operation, Tag,
};
use crate::parts::{Block, Cont};
use crate::removal::remove_arrivals;
use crate::substitution::set_dest;
use ir_ids::{Arena, BlockId, ContId, FunId, NodeId, VarId};
use lisp_base::Place;
use std::alloc::{AllocError, Global};

impl NodeKind {
    /// The continuations that a node of this kind takes, in their order.
    ///
    /// # Errors
    /// Want of memory alone.
    pub fn operands(&self, alloc: Global) -> Result<ContIds, AllocError>
        ensures { IfOk result (λ operands. operands ≡ operands_of self.now) }
    {
        match self {
            NodeKind::Ref(_) => Ok(Links::new(alloc)),
            NodeKind::Set { value, .. } => Links::of(alloc, &[*value]),
            NodeKind::If { test } => Links::of(alloc, &[*test]),
            NodeKind::Combination { operands, .. } => Links::of(alloc, operands.as_slice()),
            NodeKind::MvCombination {
                function,
                operands,
                ..
            } => {
                let mut all = Links::of(alloc, &[*function])?;
                all.extend(operands.as_slice())?;
                Ok(all)
            }
            NodeKind::Bind { value, .. } => Links::of(alloc, &[*value]),
            NodeKind::Return { value } => Links::of(alloc, &[*value]),
            NodeKind::Entry { extent, .. } => extent.operands(alloc),
            NodeKind::Exit { leaving, .. } => leaving.operands(alloc),
        }
    }

    // The blocks at which exits arrive from a node of this kind.
    fn arrivals(&self, alloc: Global) -> Result<BlockIds, AllocError>
        ensures { IfOk result (λ blocks. blocks ≡ arrivals_of self.now) }
    {
        match self {
            NodeKind::Entry { extent, .. } => match extent {
                Extent::Named { land, .. } => Links::of(alloc, &[*land]),
                Extent::Tags { tags, .. } => blocks_of(alloc, tags.as_slice()),
                Extent::Catching { land, .. } => Links::of(alloc, &[*land]),
                Extent::Guarded { cleanup } => Links::of(alloc, &[*cleanup]),
                Extent::Special { .. } => Ok(Links::new(alloc)),
                Extent::Keep { .. } => Ok(Links::new(alloc)),
            },
            _ => Ok(Links::new(alloc)),
        }
    }

    // The variable that a node of this kind names.
    fn variable(&self) -> Option<VarId>
        ensures { listed result ≡ variables_of self.now }
    {
        match self {
            NodeKind::Ref(Leaf::Variable(variable)) => Some(*variable),
            NodeKind::Set { variable, .. } => Some(*variable),
            NodeKind::Bind { variable, .. } => Some(*variable),
            NodeKind::Entry { extent, .. } => match extent {
                Extent::Named { variable, .. } => Some(*variable),
                Extent::Tags { variable, .. } => Some(*variable),
                _ => None,
            },
            _ => None,
        }
    }

    // The function that a node of this kind names.
    fn function(&self) -> Option<FunId>
        ensures { listed result ≡ functions_of self.now }
    {
        match self {
            NodeKind::Ref(Leaf::Functional(function)) => Some(*function),
            NodeKind::Ref(Leaf::Closed { function, .. }) => Some(*function),
            NodeKind::Combination { operation, .. } => match operation {
                Operation::CallKnown { function, .. } => Some(*function),
                _ => None,
            },
            _ => None,
        }
    }
}

impl Extent {
    // The continuations that an entry of this extent takes.
    fn operands(&self, alloc: Global) -> Result<ContIds, AllocError>
        ensures { IfOk result (λ operands. operands ≡ extent_operands self.now) }
    {
        match self {
            Extent::Named { .. } => Ok(Links::new(alloc)),
            Extent::Tags { .. } => Ok(Links::new(alloc)),
            Extent::Catching { tag, .. } => Links::of(alloc, &[*tag]),
            Extent::Guarded { .. } => Ok(Links::new(alloc)),
            Extent::Special { value, .. } => Links::of(alloc, &[*value]),
            Extent::Keep { values } => Links::of(alloc, &[*values]),
        }
    }
}

impl Leaving {
    // The continuations that an exit takes.
    fn operands(self, alloc: Global) -> Result<ContIds, AllocError>
        ensures { IfOk result (λ operands. operands ≡ leaving_operands self) }
    {
        match self {
            Leaving::Close => Ok(Links::new(alloc)),
            Leaving::Guard { values } => Links::of(alloc, &[values]),
            Leaving::Resume => Ok(Links::new(alloc)),
            Leaving::Release => Ok(Links::new(alloc)),
            Leaving::ReturnFrom { values, .. } => Links::of(alloc, &[values]),
            Leaving::Go { .. } => Ok(Links::new(alloc)),
            Leaving::Throw { tag, values } => Links::of(alloc, &[tag, values]),
        }
    }
}

// The node is the destination of these continuations.
fn set_dests(conts: &mut Arena<ContId, Cont>, ids: &[ContId], node: NodeId)
    ensures { map_of conts.new ≡ touched ids.now (taken_by (Some node)) (map_of conts.old) }
{
    for id in ids {
        set_dest(conts, *id, Some(node));
    }
}

// A node is the last of a block.
fn hold(blocks: &mut Arena<BlockId, Block>, id: BlockId, node: NodeId) -> Result<(), AllocError>
    ensures ok { OnOk result (map_of blocks.new ≡ changed (holding node) id (map_of blocks.old)) }
    ensures err { OnErr result (map_of blocks.new ≡ map_of blocks.old) }
{
    if let Some(block) = blocks.get_mut(id) {
        block.nodes.push(node)?;
    }
    Ok(())
}

// The exits of a node arrive at a block.
fn add_arrival(
    blocks: &mut Arena<BlockId, Block>,
    id: BlockId,
    node: NodeId,
) -> Result<(), AllocError>
    ensures ok { OnOk result (map_of blocks.new ≡ changed (arriving_from node) id (map_of blocks.old)) }
    ensures err { OnErr result (map_of blocks.new ≡ map_of blocks.old) }
{
    if let Some(block) = blocks.get_mut(id) {
        add_once(&mut block.arriving, node)?;
    }
    Ok(())
}

// A node is in a list.
fn add_once(nodes: &mut NodeIds, node: NodeId) -> Result<(), AllocError>
    ensures ok { OnOk result (nodes.new ≡ with_number node nodes.old) }
    ensures err { OnErr result (nodes.new ≡ nodes.old) }
{
    if !nodes.contains(node) {
        nodes.push(node)?;
    }
    Ok(())
}

// The exits of a new node arrive at these blocks.
fn add_arrivals(
    blocks: &mut Arena<BlockId, Block>,
    ids: &[BlockId],
    node: NodeId,
) -> Result<(), AllocError>
    requires { IsNew node (map_of blocks.old) }
    ensures ok { OnOk result (map_of blocks.new ≡ touched ids.now (arriving_from node) (map_of blocks.old)) }
    ensures err { OnErr result (map_of blocks.new ≡ map_of blocks.old) }
{
    for id in ids {
        if let Err(error) = add_arrival(blocks, *id, node) {
            remove_arrivals(blocks, ids, node);
            return Err(error);
        }
    }
    Ok(())
}

// A new node is the last of its block, and its exits arrive at blocks.
fn hold_node(
    blocks: &mut Arena<BlockId, Block>,
    block: BlockId,
    arrivals: &[BlockId],
    node: NodeId,
) -> Result<(), AllocError>
    requires { IsNew node (map_of blocks.old) }
    ensures ok { OnOk result (map_of blocks.new ≡ changed (holding node) block (touched arrivals.now (arriving_from node) (map_of blocks.old))) }
    ensures err { OnErr result (map_of blocks.new ≡ map_of blocks.old) }
{
    add_arrivals(blocks, arrivals, node)?;
    if let Err(error) = hold(blocks, block, node) {
        remove_arrivals(blocks, arrivals, node);
        return Err(error);
    }
    Ok(())
}

// The blocks of tags.
fn blocks_of(alloc: Global, tags: &[Tag]) -> Result<BlockIds, AllocError>
    ensures { IfOk result (λ blocks. blocks ≡ map (λ t. t.block) tags.now) }
{
    let mut blocks = Links::new(alloc);
    for tag in tags {
        blocks.push(tag.block)?;
    }
    Ok(blocks)
}

impl Graph {
    // Whether all of these are blocks.
    fn has_blocks(&self, ids: &[BlockId]) -> bool
        ensures { result ≡ stated.are_blocks (graph_of self.now) ids.now }
    {
        ids.iter().all(|id| self.blocks.get(*id).is_some())
    }

    // Whether all of these are continuations.
    fn has_conts(&self, ids: &[ContId]) -> bool
        ensures { result ≡ stated.are_conts (graph_of self.now) ids.now }
    {
        ids.iter().all(|id| self.conts.get(*id).is_some())
    }

    // Whether one of these has a destination.
    fn any_taken(&self, ids: &[ContId]) -> bool
        ensures { result ≡ stated.are_taken (graph_of self.now) ids.now }
    {
        ids.iter().any(|id| self.has_dest(*id))
    }

    // Whether the variable, if there is one, is there.
    fn has_variable(&self, id: Option<VarId>) -> bool
        ensures { result ≡ are_variables (graph_of self.now) (listed id) }
    {
        match id {
            Some(id) => self.variables.get(id).is_some(),
            None => true,
        }
    }

    // Whether the function, if there is one, is there.
    fn has_function(&self, id: Option<FunId>) -> bool
        ensures { result ≡ are_functions (graph_of self.now) (listed id) }
    {
        match id {
            Some(id) => self.functions.get(id).is_some(),
            None => true,
        }
    }

    // Whether what a node of this kind, with these operands, names is there.
    fn has_named(&self, kind: &NodeKind, operands: &[ContId]) -> bool
        requires { operands.now ≡ operands_of kind.now }
        ensures { result ≡ stated.are_named (graph_of self.now) kind.now }
    {
        self.has_conts(operands)
            && self.has_variable(kind.variable())
            && self.has_function(kind.function())
    }

    // Why a node cannot be added.
    fn add_fault(
        &self,
        block: BlockId,
        kind: &NodeKind,
        operands: &[ContId],
        arrivals: &[BlockId],
    ) -> Option<EditFault>
        requires taken { operands.now ≡ operands_of kind.now }
        requires reached { arrivals.now ≡ arrivals_of kind.now }
        ensures { result ≡ stated.add_fault (graph_of self.now) block kind.now }
    {
        let reached = self.has_block(block) && self.has_blocks(arrivals);
        if !(reached && self.has_named(kind, operands)) {
            Some(EditFault::NotLive)
        } else if self.any_taken(operands) {
            Some(EditFault::StillUsed)
        } else {
            None
        }
    }

    /// Adds a node at the end of a block. It is the destination of its operands, its exits arrive
    /// at the blocks that an entry names, and it delivers to no continuation yet. It looks at its
    /// operands and at these blocks alone.
    ///
    /// The kind must be neither an entry that names exits nor an exit that names its entry.
    ///
    /// # Errors
    /// `NotLive` exactly where the block, a block that the kind names, an operand, a variable or a
    /// function is not live, `StillUsed` exactly where an operand has a destination; want of
    /// memory. The graph is then as before.
    pub fn add_node(
        &mut self,
        alloc: Global,
        block: BlockId,
        kind: NodeKind,
        place: Place,
        charges: Charges,
    ) -> Result<NodeId, EditFault>
        requires { partners_of kind ≡ [] }
        ensures allowed { OnOk result (stated.add_fault (graph_of self.old) block kind ≡ None) }
        ensures vacant { IfOk result (λ n. (graph_of self.old).node n ≡ None) }
        ensures ok { IfOk result (λ n. graph_of self.new ≡ with_node n (record { kind = kind; cont = None; block = block; place = place; charges = charges }) (graph_of self.old)) }
        ensures fault { IfErr result (λ fault. stated.MayRefuse (stated.add_fault (graph_of self.old) block kind) fault) }
        ensures err { OnErr result (graph_of self.new ≡ graph_of self.old) }
    {
        let operands = kind.operands(alloc)?;
        let arrivals = kind.arrivals(alloc)?;
        if let Some(fault) = self.add_fault(
            block,
            &kind,
            operands.as_slice(),
            arrivals.as_slice(),
        ) {
            return Err(fault);
        }
        let node = Node {
            kind,
            cont: None,
            block,
            place,
            charges,
        };
        let Ok(id) = self.nodes.add(node) else {
            return Err(EditFault::Memory);
        };
        if let Err(error) = hold_node(&mut self.blocks, block, arrivals.as_slice(), id) {
            self.nodes.retire(id);
            return Err(EditFault::from(error));
        }
        set_dests(&mut self.conts, operands.as_slice(), id);
        Ok(id)
    }
}
