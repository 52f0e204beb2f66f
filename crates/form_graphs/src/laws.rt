// Laws of graphs of forms. Each function does nothing: a call of it gives its law.

ghost use Rattle.form_graphs.specs.Laws.{GraphsKeepForms};

/// Graphs of forms, taken together, keep what the forms mean together, whatever forms and graphs
/// there are, as long as each graph is that of its form: the same output, the same ending, the
/// same fuel and needs that are no greater, with heaps and stacks of every size.
pub fn graphs_keep_forms()
    ensures { GraphsKeepForms }
{}
