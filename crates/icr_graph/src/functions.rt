// Functions and their entries, and those that the form names.

ghost use Rattle.std.specs.Prelude.{◌≡◌, [], None, Some, IfErr, IfOk, OnErr, OnOk};
ghost use Rattle.ir_ids.specs.Entries.{map_of};
ghost use Rattle.icr_graph.specs.Lists.{changed};
ghost use Rattle.icr_graph.specs.Plain.{graph_of};
ghost use Rattle.icr_graph.specs.Whole.{are_variables};
ghost use Rattle.icr_graph.specs.Building.{with_function, with_lambda, with_code, beginning_at, entry_of_function, entered_at};
ghost use Rattle.icr_graph.specs.declared.faults.EditFault.TheVariants.{NotLive};
ghost use Rattle.icr_graph.specs.Faults as stated;

use crate::faults::EditFault;
use crate::graph::Graph;
use crate::parts::{Block, Function};
use ir_ids::{Arena, BlockId, FunId, VarId};
use std::alloc::AllocError;

// A block is the last entry of a function.
fn begin_at(
    functions: &mut Arena<FunId, Function>,
    id: FunId,
    block: BlockId,
) -> Result<(), AllocError>
    ensures ok { OnOk result (map_of functions.new ≡ changed (beginning_at block) id (map_of functions.old)) }
    ensures err { OnErr result (map_of functions.new ≡ map_of functions.old) }
{
    if let Some(function) = functions.get_mut(id) {
        function.entries.push(block)?;
    }
    Ok(())
}

// A block is an entry of a function.
fn set_entry_of(blocks: &mut Arena<BlockId, Block>, id: BlockId, function: FunId)
    ensures { map_of blocks.new ≡ changed (entry_of_function function) id (map_of blocks.old) }
{
    if let Some(block) = blocks.get_mut(id) {
        block.entry_of = Some(function);
    }
}

impl Graph {
    // Whether all of these are variables.
    fn has_variables(&self, ids: &[VarId]) -> bool
        ensures { result ≡ are_variables (graph_of self.now) ids.now }
    {
        ids.iter().all(|id| self.variables.get(*id).is_some())
    }

    // Why a function cannot be added.
    fn function_fault(&self, function: &Function) -> Option<EditFault>
        ensures { result ≡ stated.function_fault (graph_of self.now) function.now }
    {
        if self.has_variables(function.parameters.as_slice())
            && self.has_variables(function.closed.as_slice())
        {
            None
        } else {
            Some(EditFault::NotLive)
        }
    }

    // Why a block cannot be an entry of a function.
    fn entry_fault(&self, function: FunId, block: BlockId) -> Option<EditFault>
        ensures { result ≡ stated.entry_fault (graph_of self.now) function block }
    {
        let Some(block) = self.blocks.get(block) else {
            return Some(EditFault::NotLive);
        };
        if self.functions.get(function).is_none() {
            Some(EditFault::NotLive)
        } else if block.entry_of.is_some() {
            Some(EditFault::Linked)
        } else {
            None
        }
    }

    // Why a function cannot be one that the form names.
    fn named_function_fault(&self, function: FunId) -> Option<EditFault>
        ensures { result ≡ stated.named_function_fault (graph_of self.now) function }
    {
        if self.functions.get(function).is_some() {
            None
        } else {
            Some(EditFault::NotLive)
        }
    }

    /// Adds a function, which has no entries yet.
    ///
    /// # Errors
    /// `NotLive` exactly where a parameter or a variable that it closes over is not live; want of
    /// memory. The graph is then as before.
    pub fn add_function(&mut self, function: Function) -> Result<FunId, EditFault>
        requires { function.entries ≡ [] }
        ensures allowed { OnOk result (stated.function_fault (graph_of self.old) function ≡ None) }
        ensures vacant { IfOk result (λ f. (graph_of self.old).function f ≡ None) }
        ensures ok { IfOk result (λ f. graph_of self.new ≡ with_function f function (graph_of self.old)) }
        ensures fault { IfErr result (λ fault. stated.Refused (stated.function_fault (graph_of self.old) function) fault) }
        ensures err { OnErr result (self.new ≡ self.old) }
    {
        if let Some(fault) = self.function_fault(&function) {
            return Err(fault);
        }
        let Ok(id) = self.functions.add(function) else {
            return Err(EditFault::Memory);
        };
        Ok(id)
    }

    /// Makes a block an entry of a function, the last.
    ///
    /// # Errors
    /// `NotLive` exactly where an identifier is not live, `Linked` exactly where the block is an
    /// entry of a function; want of memory. The graph is then as before.
    pub fn add_entry(&mut self, function: FunId, block: BlockId) -> Result<(), EditFault>
        ensures allowed { OnOk result (stated.entry_fault (graph_of self.old) function block ≡ None) }
        ensures ok { OnOk result (graph_of self.new ≡ entered_at function block (graph_of self.old)) }
        ensures fault { IfErr result (λ fault. stated.Refused (stated.entry_fault (graph_of self.old) function block) fault) }
        ensures err { OnErr result (graph_of self.new ≡ graph_of self.old) }
    {
        if let Some(fault) = self.entry_fault(function, block) {
            return Err(fault);
        }
        begin_at(&mut self.functions, function, block)?;
        set_entry_of(&mut self.blocks, block, function);
        Ok(())
    }

    /// Makes a function that of the form's next lambda.
    ///
    /// # Errors
    /// `NotLive` exactly where the function is not live; want of memory. The graph is then as
    /// before.
    pub fn add_lambda(&mut self, function: FunId) -> Result<(), EditFault>
        ensures allowed { OnOk result (stated.named_function_fault (graph_of self.old) function ≡ None) }
        ensures ok { OnOk result (graph_of self.new ≡ with_lambda function (graph_of self.old)) }
        ensures fault { IfErr result (λ fault. stated.Refused (stated.named_function_fault (graph_of self.old) function) fault) }
        ensures err { OnErr result (self.new ≡ self.old) }
    {
        if let Some(fault) = self.named_function_fault(function) {
            return Err(fault);
        }
        self.lambdas.push(Some(function))?;
        Ok(())
    }

    /// Makes a function the form's own code, in the place of another that was. It takes no memory.
    ///
    /// # Errors
    /// `NotLive` exactly where the function is not live. The graph is then as before.
    pub fn set_code(&mut self, function: FunId) -> Result<(), EditFault>
        ensures allowed { OnOk result (stated.named_function_fault (graph_of self.old) function ≡ None) }
        ensures ok { OnOk result (graph_of self.new ≡ with_code function (graph_of self.old)) }
        ensures fault { IfErr result (λ fault. stated.named_function_fault (graph_of self.old) function ≡ Some fault) }
        ensures not_live { IfErr result (λ fault. fault ≡ NotLive) }
        ensures err { OnErr result (self.new ≡ self.old) }
    {
        if let Some(fault) = self.named_function_fault(function) {
            return Err(fault);
        }
        self.code = Some(function);
        Ok(())
    }
}
