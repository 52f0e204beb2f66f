// Graphs as text, a line for each block: its nodes, each with its operands, the continuation to which
// it delivers and its cost, and then the blocks after it.
use icr_convert::convert_program;
use icr_graph::{Block, Extent, Graph, Leaf, Leaving, Node, NodeKind, Operation};
use ir_ids::{BlockId, ContId, Id, NodeId};
use source_programs::program_of;
use std::alloc::{AllocError, Global};

/// The graphs of the forms of a source, those of the prelude first.
pub fn graphs_of(alloc: Global, source: &str) -> Result<Vec<Graph>, AllocError> {
    match program_of(alloc, source.as_bytes()) {
        Ok(program) => convert_program(alloc, &program),
        Err(_) => Err(AllocError),
    }
}

fn leaf_name(leaf: Leaf) -> &'static str {
    match leaf {
        Leaf::Constant(_) => "Constant",
        Leaf::Variable(_) => "Variable",
        Leaf::Global(_) => "Global",
        Leaf::GlobalFunction(_) => "GlobalFunction",
        Leaf::Functional(_) => "Functional",
        Leaf::Closed { .. } => "Closed",
        Leaf::Argument(_) => "Argument",
        Leaf::Supplied(_) => "Supplied",
        Leaf::RestFrom(_) => "RestFrom",
    }
}

fn operation_name(operation: &Operation) -> &'static str {
    match operation {
        Operation::Primitive(_) => "Primitive",
        Operation::Is(_) => "Is",
        Operation::SetGlobal(_) => "SetGlobal",
        Operation::SetFunction(_) => "SetFunction",
        Operation::Values => "Values",
        Operation::Pass => "Pass",
        Operation::CallGlobal { .. } => "CallGlobal",
        Operation::Funcall { .. } => "Funcall",
        Operation::Apply { .. } => "Apply",
        Operation::CallKnown { .. } => "CallKnown",
    }
}

fn extent_name(extent: &Extent) -> &'static str {
    match extent {
        Extent::Named { .. } => "Named",
        Extent::Tags { .. } => "Tags",
        Extent::Catching { .. } => "Catching",
        Extent::Guarded { .. } => "Guarded",
        Extent::Special { .. } => "Special",
        Extent::Keep { .. } => "Keep",
    }
}

fn leaving_name(leaving: Leaving) -> &'static str {
    match leaving {
        Leaving::Close => "Close",
        Leaving::Guard { .. } => "Guard",
        Leaving::Resume => "Resume",
        Leaving::Release => "Release",
        Leaving::ReturnFrom { .. } => "ReturnFrom",
        Leaving::Go { .. } => "Go",
        Leaving::Throw { .. } => "Throw",
    }
}

fn kind_name(kind: &NodeKind) -> &'static str {
    match kind {
        NodeKind::Ref(leaf) => leaf_name(*leaf),
        NodeKind::Set { .. } => "Set",
        NodeKind::If { .. } => "If",
        NodeKind::Combination { operation, .. } => operation_name(operation),
        NodeKind::MvCombination { .. } => "MvCall",
        NodeKind::Bind { .. } => "Bind",
        NodeKind::Return { .. } => "Return",
        NodeKind::Entry { extent, .. } => extent_name(extent),
        NodeKind::Exit { leaving, .. } => leaving_name(*leaving),
    }
}

/// Adds a word and a number.
fn put_number(text: &mut String, word: &str, number: usize) -> Result<(), AllocError> {
    let alloc = *text.allocator();
    let piece = format!(in alloc; "{word}{number}")?;
    text.push_str(piece.as_str())
}

fn put_numbers(text: &mut String, word: &str, numbers: &[ContId]) -> Result<(), AllocError> {
    for number in numbers {
        put_number(text, word, number.number())?;
    }
    Ok(())
}

fn put_blocks(text: &mut String, word: &str, numbers: &[BlockId]) -> Result<(), AllocError> {
    for number in numbers {
        put_number(text, word, number.number())?;
    }
    Ok(())
}

/// Adds where the exits of an entry arrive.
fn put_arrivals(text: &mut String, extent: &Extent) -> Result<(), AllocError> {
    match extent {
        Extent::Named { land, .. } | Extent::Catching { land, .. } => {
            put_number(text, " at b", land.number())
        }
        Extent::Guarded { cleanup } => put_number(text, " at b", cleanup.number()),
        Extent::Tags { tags, .. } => {
            for tag in tags.as_slice() {
                put_number(text, " at b", tag.block.number())?;
            }
            Ok(())
        }
        Extent::Special { .. } | Extent::Keep { .. } => Ok(()),
    }
}

/// Adds what only some kinds of nodes name: blocks, or an entry.
fn put_others(text: &mut String, kind: &NodeKind) -> Result<(), AllocError> {
    match kind {
        NodeKind::Entry { extent, .. } => put_arrivals(text, extent),
        NodeKind::Exit {
            entry: Some(entry),
            ..
        } => put_number(text, " of n", entry.number()),
        _ => Ok(()),
    }
}

fn put_node(alloc: Global, text: &mut String, node: &Node) -> Result<(), AllocError> {
    text.push_str(kind_name(&node.kind))?;
    put_numbers(text, " k", node.kind.operands(alloc)?.as_slice())?;
    put_others(text, &node.kind)?;
    if let Some(cont) = node.cont {
        put_number(text, " -> k", cont.number())?;
    }
    if node.charges.cost > 0 {
        put_number(text, " $", node.charges.cost as usize)?;
    }
    Ok(())
}

fn put_nodes(
    alloc: Global,
    text: &mut String,
    graph: &Graph,
    ids: &[NodeId],
) -> Result<(), AllocError> {
    for id in ids {
        if let Some(node) = graph.node(*id) {
            text.push_str("; ")?;
            put_node(alloc, text, node)?;
        }
    }
    Ok(())
}

/// Adds a block's line, which a function's number heads where its code begins there.
fn put_block(
    alloc: Global,
    text: &mut String,
    graph: &Graph,
    block: &Block,
) -> Result<(), AllocError> {
    if let Some(function) = block.entry_of {
        put_number(text, " f", function.number())?;
    }
    put_nodes(alloc, text, graph, block.nodes.as_slice())?;
    if !block.after.is_empty() {
        text.push_str(" =>")?;
        put_blocks(text, " b", block.after.as_slice())?;
    }
    text.push_str("\n")
}

/// The text of a new graph, whose blocks are numbered from 0 on.
pub fn shown(alloc: Global, graph: &Graph) -> Result<String, AllocError> {
    let mut text = String::new(alloc);
    for number in 0..100 {
        let Some(block) = graph.block(BlockId::of(number)) else {
            break;
        };
        put_number(&mut text, "b", number)?;
        put_block(alloc, &mut text, graph, block)?;
    }
    Ok(text)
}

/// The text of the graph of the last form of a source.
pub fn text_of(alloc: Global, source: &str) -> Result<String, AllocError> {
    let graphs = graphs_of(alloc, source)?;
    match graphs.last() {
        Some(graph) => shown(alloc, graph),
        None => Err(AllocError),
    }
}

/// How many types are asserted of a continuation and tested.
pub fn tested(graph: &Graph, number: usize) -> Option<usize> {
    let cont = graph.cont(ContId::of(number))?;
    let asserts = cont.asserts.as_slice();
    Some(asserts.iter().filter(|one| one.checked).count())
}
