// Laws of edits of graphs. Each function does nothing: a call of it gives its law.

ghost use Rattle.graph_edits.specs.Laws.{CutOffUnreached, DeletableCutOff, DeletionByShapeKept, DeletionKept, IdleHaveNoEffect, JoinKept, RetiringKept, SplitKept, SubstitutionKept};

/// A whole graph whose block is split behind a node, and one of which two blocks are joined, mean
/// what the graph meant, whatever graphs run around it: each keeps the other's meaning.
pub fn blocks_kept()
    ensures split { SplitKept }
    ensures join { JoinKept }
{}

/// A whole graph in which a node takes another continuation means what it meant, if the same is
/// asserted of both and they hold the same values whenever the node runs, before and after.
pub fn substitution_kept()
    ensures { SubstitutionKept }
{}

/// A whole graph from which a node is retired that has no effect, and whose values nobody takes,
/// means what it meant. A node has no effect that only reads, tests a type or passes values on, if
/// it costs and counts nothing, and nothing that is asserted of its operands is tested.
pub fn retiring_kept()
    ensures kept { RetiringKept }
    ensures idle { IdleHaveNoEffect }
{}

/// No run ever stands in blocks that are cut off from the others; a block that may be deleted is. A
/// whole graph from which such a block is deleted means what it meant, if no run comes to an exit
/// that names an entry of the block, as where these exits stand in blocks that are cut off: such an
/// exit would find no entry afterwards.
pub fn deletion_kept()
    ensures unreached { CutOffUnreached }
    ensures deletable { DeletableCutOff }
    ensures kept { DeletionKept }
    ensures by_shape { DeletionByShapeKept }
{}
