// Whole programs: the graphs of all forms.
ghost use Rattle.std.specs.Prelude.{IfOk, OnOk};
ghost use Rattle.icr_convert.specs.Programs.{AddsGraphs, AreFormsOf, AreGraphsOf, GraphsKeepProgram, all_forms};

use crate::whole::convert_form;
use core_form::{Program, TopForm, forms_are_layers};
use form_graphs::graphs_keep_forms;
use icr_graph::Graph;
use std::alloc::{AllocError, Global};

/// Adds the graphs of some forms of a program.
fn add_graphs(
    alloc: Global,
    graphs: &mut Vec<Graph>,
    forms: &[TopForm],
    program: &Program,
) -> Result<(), AllocError>
    requires { AreFormsOf program.now forms.now }
    ensures { OnOk result (AddsGraphs program.now forms.now graphs.old.items graphs.new.items) }
{
    for form in forms {
        graphs.push(convert_form(alloc, form, program)?)?;
    }
    Ok(())
}

/// The flow graphs of all forms of a program, in their order, those of the prelude first. Together
/// they keep what the program means.
///
/// # Errors
/// Want of memory alone.
pub fn convert_program(alloc: Global, program: &Program) -> Result<Vec<Graph>, AllocError>
    ensures graphs { IfOk result (λ gs. AreGraphsOf program.now (all_forms program.now) gs.items) }
    ensures keeps { IfOk result (λ gs. GraphsKeepProgram program.now gs.items) }
{
    graphs_keep_forms();
    forms_are_layers();
    let mut graphs = Vec::new(alloc);
    add_graphs(alloc, &mut graphs, program.prelude(), program)?;
    add_graphs(alloc, &mut graphs, program.forms(), program)?;
    Ok(graphs)
}
