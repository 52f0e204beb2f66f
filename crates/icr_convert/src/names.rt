// The variables and functions of a graph, by the numbers of the form.
ghost use Rattle.std.specs.Prelude.{◌≡◌, if◌then◌else◌, IfOk, Some, None, slice_get};
ghost use Rattle.ir_ids.specs.Entries.{map_of};
ghost use Rattle.icr_convert.specs.Scene.{IsLocal, Ready, Scene, made_takes};
ghost use Rattle.icr_graph.specs.Plain.{FlowGraph};
ghost use Rattle.form_graphs.specs.Standing.{is_word as is_word_variable};
ghost use Rattle.core_form.specs.Reading.{core_of};
ghost use Rattle.icr_convert.specs.Converting.{KnowsFunction};

use core_form::{Core, Form, Variable, reads_nodes};
use form_facts::FormFacts;
use form_names::FormNames;
use ir_ids::{BlockId, FunId, VarId};
use std::alloc::AllocError;

/// A function of the graph: the block at which its code begins, and how many arguments it takes.
#[derive(Clone, Copy)]
pub(crate) struct Made {
    pub function: FunId,
    pub block: BlockId,
    pub required: u32,
    pub optional: u32,
    pub rest: bool,
}

/// The facts of a form, and what stands in its graph for its variables, blocks and tagbodies, by
/// their numbers, and for its functions, by those of their lambdas.
#[derive(Drop)]
pub(crate) struct Names {
    pub facts: FormFacts,
    pub texts: FormNames,
    pub variables: Vec<Option<VarId>>,
    pub functions: Vec<Made>,
}

impl Made {
    /// Whether the function takes so many arguments.
    pub(crate) fn takes(&self, arguments: usize) -> bool
        ensures { result ≡ made_takes self.now arguments }
    {
        let given = arguments as u64;
        let most = u64::from(self.required) + u64::from(self.optional);
        given >= u64::from(self.required) && (self.rest || given <= most)
    }

    /// The function, if it takes so many arguments.
    pub(crate) fn when_takes(&self, arguments: usize) -> Option<FunId>
        ensures { result ≡ (if made_takes self.now arguments then Some self.now.function else None) }
    {
        if self.takes(arguments) {
            Some(self.function)
        } else {
            None
        }
    }
}

impl Names {
    /// The variable of a number.
    ///
    /// # Errors
    /// Told as want of memory: there is none, as in no checked form.
    pub(crate) fn variable(&self, number: u32) -> Result<VarId, AllocError>
        ensures { IfOk result (λ v. map_of self.now.variables.items number ≡ Some v) }
    {
        match self.variables.get(number as usize) {
            Some(Some(variable)) => Ok(*variable),
            _ => Err(AllocError),
        }
    }

    /// The function of a lambda's number.
    ///
    /// # Errors
    /// Told as want of memory: there is none, as in no checked form.
    pub(crate) fn function(&self, lambda: u32) -> Result<Made, AllocError>
        ensures { IfOk result (λ m. slice_get self.now.functions.items lambda ≡ Some m) }
    {
        match self.functions.get(lambda as usize) {
            Some(made) => Ok(*made),
            None => Err(AllocError),
        }
    }

    /// The function of a local function's number.
    ///
    /// # Errors
    /// Told as want of memory: there is none, as in no checked form.
    pub(crate) fn local_function(&self, number: u32) -> Result<Made, AllocError>
        ensures { IfOk result (IsLocal self.now number) }
    {
        match self.texts.local_function(number) {
            Some(lambda) => self.function(lambda),
            None => Err(AllocError),
        }
    }

    /// The function that a call names where it stands, by a lambda or as a local function, if it
    /// takes so many arguments.
    pub(crate) fn known(
        &self,
        function: &Core,
        arguments: usize,
    ) -> Result<Option<FunId>, AllocError>
        ensures { IfOk result (KnowsFunction self.now (core_of function.now) arguments) }
    {
        reads_nodes();
        match &function.form {
            Form::Lambda(lambda) => Ok(self.function(lambda.number)?.when_takes(arguments)),
            Form::FunLocal(number) => Ok(self.local_function(*number)?.when_takes(arguments)),
            _ => Ok(None),
        }
    }

    /// Whether a variable holds its value as a word.
    pub(crate) fn is_word(&self, variable: Variable) -> bool
        ensures { (s : Scene) (g : FlowGraph) → Ready s self.now g → result ≡ is_word_variable s.facts variable }
    {
        match variable {
            Variable::Lexical { number, .. } => self.facts.is_word(number),
            Variable::Special(_) => false,
        }
    }
}
