use icr_graph::*;
use ir_ids::BlockId;
use std::alloc::{AllocError, Global};
use std::test::*;

// A graph with two blocks.
fn two(alloc: Global) -> Result<(Graph, BlockId, BlockId), AllocError> {
    let mut graph = Graph::new(alloc, 0, 0, None);
    let first = graph.add_block(alloc)?;
    let second = graph.add_block(alloc)?;
    Ok((graph, first, second))
}

// The blocks after a block and before another are each other alone.
fn is_only_edge(graph: &Graph, from: BlockId, to: BlockId) -> bool {
    match (graph.block(from), graph.block(to)) {
        (Some(from_block), Some(to_block)) => {
            from_block.after.as_slice() == [to].as_slice()
                && to_block.before.as_slice() == [from].as_slice()
        }
        _ => false,
    }
}

#[test]
fn an_edge_is_added_once(rt: HostRuntime) -> Result<(), Fail> {
    let (mut graph, first, second) = two(rt.alloc())?;
    assert_eq!(rt; graph.link(first, second), Ok(()));
    assert_eq!(rt; graph.link(first, second), Err(EditFault::Linked));
    assert!(rt; is_only_edge(&graph, first, second));
    Ok(())
}

#[test]
fn an_edge_is_removed_once(rt: HostRuntime) -> Result<(), Fail> {
    let (mut graph, first, second) = two(rt.alloc())?;
    assert_eq!(rt; graph.link(first, second), Ok(()));
    assert_eq!(rt; graph.unlink(first, second), Ok(()));
    assert_eq!(rt; graph.unlink(first, second), Err(EditFault::NotLinked));
    assert!(rt; !is_only_edge(&graph, first, second));
    Ok(())
}

#[test]
fn a_block_that_is_reached_stays(rt: HostRuntime) -> Result<(), Fail> {
    let (mut graph, first, second) = two(rt.alloc())?;
    assert_eq!(rt; graph.link(first, second), Ok(()));
    assert_eq!(rt; graph.delete_block(second), Err(EditFault::StillUsed));
    assert!(rt; is_only_edge(&graph, first, second));
    Ok(())
}

#[test]
fn a_deleted_block_leaves_no_edge(rt: HostRuntime) -> Result<(), Fail> {
    let (mut graph, first, second) = two(rt.alloc())?;
    assert_eq!(rt; graph.link(first, second), Ok(()));
    assert_eq!(rt; graph.link(first, first), Ok(()));
    assert_eq!(rt; graph.delete_block(first), Ok(()));
    assert!(rt; graph.block(first).is_none());
    assert_eq!(rt;
        graph.block(second).map(|block| block.before.len()),
        Some(0)
    );
    Ok(())
}

#[test]
fn a_retired_block_is_not_live(rt: HostRuntime) -> Result<(), Fail> {
    let (mut graph, first, second) = two(rt.alloc())?;
    assert_eq!(rt; graph.delete_block(first), Ok(()));
    assert_eq!(rt; graph.link(first, second), Err(EditFault::NotLive));
    assert_eq!(rt; graph.unlink(second, first), Err(EditFault::NotLive));
    assert_eq!(rt; graph.delete_block(first), Err(EditFault::NotLive));
    Ok(())
}

#[test]
fn a_continuation_without_a_destination_is_not_substituted(rt: HostRuntime) -> Result<(), Fail> {
    let alloc = rt.alloc();
    let mut graph = Graph::new(alloc, 0, 0, None);
    let first = graph.add_cont(alloc)?;
    let second = graph.add_cont(alloc)?;
    assert_eq!(rt;
        graph.substitute_use(first, second),
        Err(EditFault::NotLinked)
    );
    assert_eq!(rt; graph.cont(first).map(|cont| cont.dest), Some(None));
    Ok(())
}

// Which blocks come before a block and after it.
fn stands_between(graph: &Graph, id: BlockId, before: &[BlockId], after: &[BlockId]) -> bool {
    match graph.block(id) {
        Some(block) => block.before.as_slice() == before && block.after.as_slice() == after,
        None => false,
    }
}

#[test]
fn edges_come_and_go_in_their_order(rt: HostRuntime) -> Result<(), Fail> {
    let alloc = rt.alloc();
    let (mut graph, first, second) = two(alloc)?;
    let third = graph.add_block(alloc)?;
    assert_eq!(rt; graph.link(first, third), Ok(()));
    assert_eq!(rt; graph.link(first, second), Ok(()));
    assert_eq!(rt; graph.link(second, third), Ok(()));
    assert_eq!(rt; graph.unlink(first, third), Ok(()));
    assert_eq!(rt; graph.link(first, third), Ok(()));
    assert!(rt; stands_between(&graph, first, &[], &[second, third]));
    assert!(rt; stands_between(&graph, second, &[first], &[third]));
    assert!(rt; stands_between(&graph, third, &[second, first], &[]));
    Ok(())
}
