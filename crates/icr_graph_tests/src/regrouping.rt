use icr_graph::*;
use ir_ids::{BlockId, Id, NodeId};
use std::alloc::{AllocError, Global};
use std::test::*;

// A graph with two blocks and an edge from the first to the second.
fn edge(alloc: Global) -> Result<(Graph, BlockId, BlockId), AllocError> {
    let mut graph = Graph::new(alloc, 0, 0, None);
    let first = graph.add_block(alloc)?;
    let second = graph.add_block(alloc)?;
    if graph.link(first, second).is_err() {
        return Err(AllocError);
    }
    Ok((graph, first, second))
}

// How many blocks are before and after a block.
fn counts(graph: &Graph, id: BlockId) -> Option<(usize, usize)> {
    graph
        .block(id)
        .map(|block| (block.before.len(), block.after.len()))
}

#[test]
fn a_block_is_not_split_behind_a_node_that_is_not_live(rt: HostRuntime) -> Result<(), Fail> {
    let (mut graph, first, _) = edge(rt.alloc())?;
    let node = NodeId::of(0);
    assert_eq!(rt; graph.split_block(node), Err(EditFault::NotLive));
    assert_eq!(rt; counts(&graph, first), Some((0, 1)));
    Ok(())
}

#[test]
fn joined_blocks_are_one(rt: HostRuntime) -> Result<(), Fail> {
    let (mut graph, first, second) = edge(rt.alloc())?;
    assert_eq!(rt; graph.link(second, first), Ok(()));
    assert_eq!(rt; graph.join_blocks(first, second), Ok(()));
    assert_eq!(rt; counts(&graph, first), Some((1, 1)));
    assert!(rt; graph.block(second).is_none());
    Ok(())
}

#[test]
fn a_block_is_not_joined_with_itself(rt: HostRuntime) -> Result<(), Fail> {
    let (mut graph, _, second) = edge(rt.alloc())?;
    assert_eq!(rt; graph.link(second, second), Ok(()));
    assert_eq!(rt; graph.join_blocks(second, second), Err(EditFault::NotAlone));
    assert_eq!(rt; counts(&graph, second), Some((2, 1)));
    Ok(())
}

#[test]
fn blocks_without_an_edge_are_not_joined(rt: HostRuntime) -> Result<(), Fail> {
    let (mut graph, first, second) = edge(rt.alloc())?;
    assert_eq!(rt; graph.join_blocks(second, first), Err(EditFault::NotLinked));
    assert_eq!(rt; graph.delete_block(first), Ok(()));
    assert_eq!(rt; graph.join_blocks(first, second), Err(EditFault::NotLive));
    Ok(())
}
