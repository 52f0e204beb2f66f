// The variables and functions of a form.
ghost use Rattle.std.specs.Prelude.{◌≡◌, true, IfOk, OnOk, length, map};
ghost use Rattle.core_form.specs.Facts.{has_number};
ghost use Rattle.graph_meaning.specs.Reading.{is_extent};
ghost use Rattle.form_names.specs.Read.{text_of};
ghost use Rattle.icr_convert.specs.Whole.{AreVariables, Declares, FunctionsMade, MakesFunction, VariablesMade};

use crate::binders::Binder;
use crate::converter::Converter;
use crate::copies::copies_of;
use crate::functions::count;
use crate::names::Made;
use crate::numbered::put;
use core_form::{Lambda, Parameter, Variable as Bound, reads_nodes};
use form_facts::FormFacts;
use form_names::{FormNames, Text};
use icr_graph::{BlockIds, Function, VarIds, Variable};
use ir_ids::VarId;
use lisp_base::{Specs, SymId};
use std::alloc::{AllocError, Global};

/// The variables of these numbers, in their order.
///
/// # Errors
/// Want of memory; told as that: one of them is not there, as in no checked form.
fn these(alloc: Global, variables: &[Option<VarId>], numbers: &[u32]) -> Result<VarIds, AllocError>
    ensures { IfOk result (AreVariables variables.now numbers.now) }
{
    let mut found = VarIds::new(alloc);
    for number in numbers {
        match variables.get(*number as usize) {
            Some(Some(variable)) => found.push(*variable)?,
            _ => return Err(AllocError),
        }
    }
    Ok(found)
}

/// Whether a number is that of a block or tagbody exactly where there is no name.
fn is_told(texts: &FormNames, number: u32, name: Option<SymId>) -> bool
    ensures { result ≡ true → is_extent name ≡ has_number number texts.now.extents }
{
    match name {
        None => texts.is_extent(number),
        Some(_) => !texts.is_extent(number),
    }
}

fn note_lexical(numbers: &mut Vec<u32>, parameter: &Parameter) -> Result<(), AllocError> {
    if let Bound::Lexical { number, .. } = parameter.variable {
        numbers.push(number)?;
    }
    Ok(())
}

/// The numbers of the lexical variables that a function's parameters bind, in their order.
fn parameter_numbers(alloc: Global, lambda: &Lambda) -> Result<Vec<u32>, AllocError> {
    let mut numbers = Vec::new(alloc);
    for parameter in &lambda.required {
        note_lexical(&mut numbers, parameter)?;
    }
    for optional in &lambda.optional {
        note_lexical(&mut numbers, &optional.parameter)?;
        if let Some(supplied) = &optional.supplied {
            note_lexical(&mut numbers, supplied)?;
        }
    }
    if let Some(rest) = &lambda.rest {
        note_lexical(&mut numbers, rest)?;
    }
    Ok(numbers)
}

impl Converter {
    /// Adds the variables of a form, and what stands for its blocks and tagbodies; gives them by
    /// their numbers.
    pub(crate) fn variables(
        &mut self,
        facts: &FormFacts,
        texts: &FormNames,
        binders: &[Binder<'_>],
    ) -> Result<Vec<Option<VarId>>, AllocError>
        ensures { IfOk result (λ vs. VariablesMade facts.now texts.now self.old.built self.new.built vs.items) }
    {
        let mut variables = Vec::new(self.alloc);
        for binder in binders {
            self.declare(facts, texts, *binder, &mut variables)?;
        }
        Ok(variables)
    }

    /// Adds what one binder binds, under its number; nothing for a special variable.
    pub(crate) fn declare(
        &mut self,
        facts: &FormFacts,
        texts: &FormNames,
        binder: Binder<'_>,
        variables: &mut Vec<Option<VarId>>,
    ) -> Result<(), AllocError>
        ensures { OnOk result (Declares facts.now texts.now self.old.built self.new.built variables.old.items variables.new.items) }
    {
        match binder {
            Binder::Extent(number) => {
                let types = Vec::new(self.alloc);
                self.declare_variable(facts, texts, number, None, types, variables)
            }
            Binder::Variable(parameter) => match parameter.variable {
                Bound::Special(_) => Ok(()),
                Bound::Lexical { number, name } => {
                    let types = copies_of(self.alloc, &parameter.types)?;
                    self.declare_variable(facts, texts, number, Some(name), types, variables)
                }
            },
        }
    }

    /// Adds a variable, or without a name what stands for a block or tagbody, under its number.
    ///
    /// # Errors
    /// Want of memory; told as that: the number is that of both, as in no checked form.
    pub(crate) fn declare_variable(
        &mut self,
        facts: &FormFacts,
        texts: &FormNames,
        number: u32,
        name: Option<SymId>,
        types: Specs,
        variables: &mut Vec<Option<VarId>>,
    ) -> Result<(), AllocError>
        ensures { OnOk result (Declares facts.now texts.now self.old.built self.new.built variables.old.items variables.new.items) }
    {
        if !is_told(texts, number, name) {
            return Err(AllocError);
        }
        let variable = self.built.variable(Variable {
            number,
            name,
            cell: facts.is_cell(number),
            word: facts.is_word(number),
            types,
        })?;
        put(variables, number, variable)
    }

    /// Adds a function for each text, that of the form's next lambda.
    pub(crate) fn functions(
        &mut self,
        facts: &FormFacts,
        variables: &[Option<VarId>],
        texts: &[Text<'_>],
    ) -> Result<Vec<Made>, AllocError>
        ensures { IfOk result (λ ms. FunctionsMade facts.now variables.now (map text_of texts.now) (length texts.now) self.old.built self.new.built ms.items) }
    {
        let mut functions = Vec::new(self.alloc);
        for number in 0..texts.len() {
            let closed = these(self.alloc, variables, facts.closed_of(count(number)?))?;
            functions.push(self.declare_function(variables, texts[number], closed)?)?;
        }
        Ok(functions)
    }

    /// Adds a function, which closes over these variables.
    pub(crate) fn declare_function(
        &mut self,
        variables: &[Option<VarId>],
        text: Text<'_>,
        closed: VarIds,
    ) -> Result<Made, AllocError>
        ensures { IfOk result (MakesFunction (text_of text.entry) closed self.old.built self.new.built) }
    {
        reads_nodes();
        let lambda = text.lambda;
        let numbers = parameter_numbers(self.alloc, lambda)?;
        let parameters = these(self.alloc, variables, &numbers)?;
        let required = count(lambda.required.len())?;
        let optional = count(lambda.optional.len())?;
        let rest = lambda.rest.is_some();
        let made = self.built.function(Function {
            lambda: Some(lambda.number),
            name: text.name,
            place: text.place,
            required,
            optional,
            rest,
            parameters,
            closed,
            entries: BlockIds::new(self.alloc),
        })?;
        self.built.add_lambda(made.function)?;
        Ok(Made {
            function: made.function,
            block: made.block,
            required,
            optional,
            rest,
        })
    }
}
