ghost use Rattle.std.specs.Prelude.{◌≡◌, []};
ghost use Rattle.icr_graph.specs.Kinds.{partners_of};

use icr_graph::*;
use ir_ids::{BlockId, ContId, FunId, NodeId};
use lisp_base::Place;
use std::alloc::{AllocError, Global};
use std::test::*;

// A node of a kind at the end of a block.
fn add(
    graph: &mut Graph,
    alloc: Global,
    block: BlockId,
    kind: NodeKind,
) -> Result<NodeId, EditFault>
    requires { partners_of kind ≡ [] }
{
    let place = Place::File { offset: 0, tail: 0 };
    let charges = Charges {
        cost: 1,
        levels: 1,
        boxing: 0,
    };
    graph.add_node(alloc, block, kind, place, charges)
}

// A graph with a block that holds the return of a continuation.
fn returning(alloc: Global) -> Result<(Graph, BlockId, ContId, NodeId), EditFault> {
    let mut graph = Graph::new(alloc, 0, 0, None);
    let block = graph.add_block(alloc)?;
    let value = graph.add_cont(alloc)?;
    let node = add(&mut graph, alloc, block, NodeKind::Return { value })?;
    Ok((graph, block, value, node))
}

// A graph with a function that begins at a block.
fn function(alloc: Global) -> Result<(Graph, FunId, BlockId), EditFault> {
    let mut graph = Graph::new(alloc, 0, 0, None);
    let block = graph.add_block(alloc)?;
    let function = graph.add_function(Function {
        lambda: None,
        name: None,
        place: Place::File { offset: 0, tail: 0 },
        required: 0,
        optional: 0,
        rest: false,
        parameters: Links::new(alloc),
        closed: Links::new(alloc),
        entries: Links::new(alloc),
    })?;
    graph.add_entry(function, block)?;
    Ok((graph, function, block))
}

// A graph with an entry and an exit, and the block of its cleanup form.
fn guarded(alloc: Global) -> Result<(Graph, NodeId, NodeId, BlockId), EditFault> {
    let mut graph = Graph::new(alloc, 0, 0, None);
    let block = graph.add_block(alloc)?;
    let cleanup = graph.add_block(alloc)?;
    let extent = Extent::Guarded { cleanup };
    let exits = Links::new(alloc);
    let entry = add(&mut graph, alloc, block, NodeKind::Entry { extent, exits })?;
    let leaving = Leaving::Resume;
    let exit = add(
        &mut graph,
        alloc,
        cleanup,
        NodeKind::Exit {
            leaving,
            entry: None,
        },
    )?;
    Ok((graph, entry, exit, cleanup))
}

// The destination of a continuation.
fn dest(graph: &Graph, id: ContId) -> Option<NodeId> {
    graph.cont(id).and_then(|cont| cont.dest)
}

#[test]
fn a_continuation_is_not_substituted_for_itself(rt: HostRuntime) -> Result<(), Fail> {
    let (mut graph, _, value, node) = returning(rt.alloc()).map_err(|_| AllocError)?;
    assert_eq!(rt;
        graph.substitute_use(value, value),
        Err(EditFault::StillUsed)
    );
    assert_eq!(rt; dest(&graph, value), Some(node));
    Ok(())
}

#[test]
fn a_node_delivers_to_one_continuation(rt: HostRuntime) -> Result<(), Fail> {
    let alloc = rt.alloc();
    let (mut graph, _, value, node) = returning(alloc).map_err(|_| AllocError)?;
    assert_eq!(rt; graph.deliver(node, value), Ok(()));
    assert_eq!(rt; graph.deliver(node, value), Err(EditFault::Linked));
    assert_eq!(rt; graph.cont(value).map(|cont| cont.uses.len()), Some(1));
    Ok(())
}

#[test]
fn an_entry_of_a_function_is_not_deleted(rt: HostRuntime) -> Result<(), Fail> {
    let (mut graph, function, block) = function(rt.alloc()).map_err(|_| AllocError)?;
    assert_eq!(rt; graph.delete_block(block), Err(EditFault::StillUsed));
    assert_eq!(rt; graph.add_entry(function, block), Err(EditFault::Linked));
    assert_eq!(rt;
        graph.block(block).map(|block| block.entry_of),
        Some(Some(function))
    );
    Ok(())
}

#[test]
fn a_form_names_its_functions(rt: HostRuntime) -> Result<(), Fail> {
    let (mut graph, function, _) = function(rt.alloc()).map_err(|_| AllocError)?;
    assert_eq!(rt; graph.add_lambda(function), Ok(()));
    assert_eq!(rt; graph.set_code(function), Ok(()));
    assert!(rt; graph.lambdas() == [Some(function)].as_slice());
    assert_eq!(rt; graph.code(), Some(function));
    assert!(rt; graph.defines().is_none());
    Ok(())
}

#[test]
fn a_form_names_no_function_of_another(rt: HostRuntime) -> Result<(), Fail> {
    let alloc = rt.alloc();
    let (_, other, _) = function(alloc).map_err(|_| AllocError)?;
    let mut graph = Graph::new(alloc, 0, 0, None);
    assert_eq!(rt; graph.add_lambda(other), Err(EditFault::NotLive));
    assert_eq!(rt; graph.set_code(other), Err(EditFault::NotLive));
    assert!(rt; graph.lambdas().is_empty());
    assert_eq!(rt; graph.code(), None);
    Ok(())
}

#[test]
fn a_non_local_entry_is_not_deleted(rt: HostRuntime) -> Result<(), Fail> {
    let (mut graph, entry, exit, cleanup) = guarded(rt.alloc()).map_err(|_| AllocError)?;
    assert_eq!(rt; graph.delete_block(cleanup), Err(EditFault::StillUsed));
    assert_eq!(rt; graph.pair(exit, entry), Ok(()));
    assert_eq!(rt; graph.pair(exit, entry), Err(EditFault::Linked));
    assert_eq!(rt; graph.pair(entry, exit), Err(EditFault::NotLive));
    Ok(())
}

#[test]
fn a_retired_node_is_not_live(rt: HostRuntime) -> Result<(), Fail> {
    let alloc = rt.alloc();
    let (mut graph, block, value, node) = returning(alloc).map_err(|_| AllocError)?;
    assert_eq!(rt; graph.retire(node), Err(EditFault::StillUsed));
    assert!(rt; add(&mut graph, alloc, block, NodeKind::Ref(Leaf::Argument(0))).is_ok());
    assert_eq!(rt; graph.retire(node), Ok(()));
    assert_eq!(rt; dest(&graph, value), None);
    assert_eq!(rt; graph.retire(node), Err(EditFault::NotLive));
    assert_eq!(rt; graph.deliver(node, value), Err(EditFault::NotLive));
    Ok(())
}
