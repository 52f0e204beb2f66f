// Functions added.
ghost use Rattle.std.specs.Prelude.{◌≡◌, ℕ, Bool, [], IfOk, OnOk};
ghost use Rattle.icr_graph.specs.Plain.{graph_of};
ghost use Rattle.graph_building.specs.Built as built;
ghost use Rattle.graph_building.specs.Orderly.{Owned, Sound};
ghost use Rattle.graph_building.specs.Steps.{AddsFunction};

use crate::builder::{Builder, NewFunction, want_of_memory};
use crate::owners::{Owners, note_owner};
use icr_graph::{Function, Graph};
use ir_ids::FunId;
use std::alloc::{AllocError, Global};

// Adds a function, whose code begins at a new block. What is sound stays so, also where it
// fails; and so do owners.
pub(crate) fn begin_function(
    graph: &mut Graph,
    owners: &mut Owners,
    alloc: Global,
    function: Function,
) -> Result<NewFunction, AllocError>
    requires { function.entries ≡ [] }
    ensures added { IfOk result (λ f. AddsFunction function (graph_of graph.old) (graph_of graph.new) f.function f.block) }
    ensures sound { (half_forked : Bool) (block : ℕ) → Sound half_forked (graph_of graph.old) block → Sound half_forked (graph_of graph.new) block }
    ensures owned { Owned owners.old (graph_of graph.old) → Owned owners.new (graph_of graph.new) }
{
    let function = graph.add_function(function).map_err(want_of_memory)?;
    let block = graph.add_block(alloc)?;
    note_owner(owners, block, function)?;
    graph.add_entry(function, block).map_err(want_of_memory)?;
    Ok(NewFunction { function, block })
}

impl Builder {
    /// Adds a function, whose code begins at a new block.
    ///
    /// # Errors
    /// Want of memory.
    pub fn function(&mut self, function: Function) -> Result<NewFunction, AllocError>
        requires { function.entries ≡ [] }
        ensures { IfOk result (λ f. built.NewFunction function self.old self.new f.function f.block) }
    {
        begin_function(&mut self.graph, &mut self.owners, self.alloc, function)
    }

    /// Makes a function that of the form's next lambda.
    ///
    /// # Errors
    /// Want of memory.
    pub fn add_lambda(&mut self, function: FunId) -> Result<(), AllocError>
        ensures { OnOk result (built.NewLambda function self.old self.new) }
    {
        self.graph.add_lambda(function).map_err(want_of_memory)
    }
}
