// Laws of what graphs mean. Each function does nothing: a call of it gives its law.

ghost use Rattle.graph_meaning.specs.Laws.{GraphsAreLawful, GraphsAreNeverFull};

/// Any graphs together are a lawful layer, whose moments are steps of the machine, and never full.
pub fn graphs_are_layers()
    ensures lawful { GraphsAreLawful }
    ensures full { GraphsAreNeverFull }
{}
