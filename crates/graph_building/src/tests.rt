// Small graphs, built with ample memory.
use crate::Builder;
use icr_graph::{Charges, Extent, Graph, Leaf, Leaving, Links, NodeKind};
use ir_ids::{ContId, Id, NodeId};
use lisp_base::{Place, Val};
use std::alloc::{AllocError, Global};
use std::test::Fail;

const PLACE: Place = Place::File { offset: 0, tail: 0 };

const CHARGES: Charges = Charges {
    cost: 1,
    levels: 1,
    boxing: 0,
};

fn begun(alloc: Global) -> Result<Builder, AllocError> {
    Builder::new(alloc, 1, 0, None, PLACE)
}

fn constant(builder: &mut Builder, to: Option<ContId>) -> Result<NodeId, AllocError> {
    let kind = NodeKind::Ref(Leaf::Constant(Val::Int(5)));
    builder.node(kind, to, PLACE, CHARGES)
}

/// The number of the continuation to which a node delivers.
fn delivers_to(graph: &Graph, node: NodeId) -> Option<usize> {
    let cont = graph.node(node)?.cont?;
    Some(cont.number())
}

#[test]
fn a_node_delivers_or_not(rt: HostRuntime) -> Result<(), Fail> {
    let alloc = rt.alloc();
    let mut builder = begun(alloc)?;
    let value = builder.cont()?;
    let first = constant(&mut builder, Some(value))?;
    let last = constant(&mut builder, None)?;
    let graph = builder.finish()?;
    assert!(rt; delivers_to(&graph, first) == Some(value.number()));
    assert!(rt; delivers_to(&graph, last).is_none());
    Ok(())
}

#[test]
fn blocks_end_once(rt: HostRuntime) -> Result<(), Fail> {
    let alloc = rt.alloc();
    let mut builder = begun(alloc)?;
    let yes = builder.block()?;
    let no = builder.block()?;
    assert!(rt; builder.fork(yes, no).is_err());
    let test = builder.cont()?;
    let _test = constant(&mut builder, Some(test))?;
    let _choice = builder.node(NodeKind::If { test }, None, PLACE, CHARGES)?;
    assert!(rt; builder.go_on(no, no).is_err());
    builder.fork(yes, no)?;
    let _node = constant(&mut builder, None)?;
    builder.go_on(no, no)?;
    assert!(rt; builder.begin(yes).is_err());
    builder.begin(no)?;
    let _graph = builder.finish()?;
    Ok(())
}

#[test]
fn a_graph_that_ends_with_a_choice_is_not_finished(rt: HostRuntime) -> Result<(), Fail> {
    let alloc = rt.alloc();
    let mut builder = begun(alloc)?;
    let test = builder.cont()?;
    let _test = constant(&mut builder, Some(test))?;
    let _choice = builder.node(NodeKind::If { test }, None, PLACE, CHARGES)?;
    assert!(rt; builder.finish().is_err());
    Ok(())
}

#[test]
fn an_exit_names_its_entry(rt: HostRuntime) -> Result<(), Fail> {
    let alloc = rt.alloc();
    let mut builder = begun(alloc)?;
    let values = builder.cont()?;
    let _node = constant(&mut builder, Some(values))?;
    let extent = Extent::Keep { values };
    let exits = Links::new(alloc);
    let kind = NodeKind::Entry { extent, exits };
    let entry = builder.node(kind, None, PLACE, CHARGES)?;
    builder.exit(Leaving::Release, Some(entry), None, PLACE, CHARGES)?;
    let graph = builder.finish()?;
    let count = match graph.node(entry) {
        Some(node) => match &node.kind {
            NodeKind::Entry { exits, .. } => exits.len(),
            _ => 0,
        },
        None => 0,
    };
    assert!(rt; count == 1);
    Ok(())
}
