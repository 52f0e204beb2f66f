// A whole form: its variables, its functions, its own code.
ghost use Rattle.std.specs.Prelude.{◌≡◌, IfOk, OnOk, length, map};
ghost use Rattle.core_form.specs.Facts.{functions_in as functions_in_tree};
ghost use Rattle.core_form.specs.Reading.{core_of, cores_list, top_of};
ghost use Rattle.icr_graph.specs.Plain.{graph_of};
ghost use Rattle.form_graphs.specs.Functions.{IsGraphOf};
ghost use Rattle.form_names.specs.Read.{text_of};
ghost use Rattle.icr_convert.specs.Whole.{Begun, CodesAll, GraphKeeps, IsFormOf, IsWellMade, NamesMade, OwnCodes, defined_with, set_by, set_first, set_in, symbols_of};

use crate::binders::note;
use crate::converter::Converter;
use crate::functions::count;
use crate::names::Names;
use crate::setting::Setting;
use closed_copies::closed_copies;
use core_form::{Core, Form, Program, TopForm, reads_lists, reads_nodes};
use form_facts::form_facts;
use form_graphs::graphs_keep_forms;
use form_names::{Text, form_names, functions_in, numbered_functions};
use graph_building::Builder;
use icr_graph::{Defined, Graph, NodeKind};
use lisp_base::SymId;
use std::alloc::{AllocError, Global};

/// The symbol to which a node gives a function.
fn given_by(core: &Core) -> Option<SymId>
    ensures { result ≡ set_by (core_of core.now) }
{
    reads_lists();
    reads_nodes();
    match &core.form {
        Form::SetFun(name, _) => Some(*name),
        Form::Quote(_)
        | Form::Local(_)
        | Form::SetLocal(_, _)
        | Form::Global(_)
        | Form::SetGlobal(_, _)
        | Form::If(_, _, _)
        | Form::Progn(_)
        | Form::Let(_, _)
        | Form::Lambda(_)
        | Form::Labels(_, _)
        | Form::CallLocal(_, _)
        | Form::CallGlobal(_, _)
        | Form::Funcall(_, _)
        | Form::Apply(_, _)
        | Form::MvCall(_, _)
        | Form::FunLocal(_)
        | Form::FunGlobal(_)
        | Form::Primitive(_, _)
        | Form::Is(_, _)
        | Form::The(_, _)
        | Form::Block(_, _, _)
        | Form::ReturnFrom(_, _)
        | Form::Tagbody(_)
        | Form::Go(_)
        | Form::Catch(_, _)
        | Form::Throw(_, _)
        | Form::Unwind(_, _)
        | Form::Values(_)
        | Form::MvProg1(_, _) => None,
    }
}

/// The symbol to which the first of these nodes gives a function.
fn given_first(parts: &[Core]) -> Option<SymId>
    ensures { result ≡ set_first (cores_list parts.now) }
{
    match parts.split_first() {
        Some((first, _)) => given_by(first),
        None => None,
    }
}

/// The symbol to which a form gives a function, alone or first.
fn given(core: &Core) -> Option<SymId>
    ensures { result ≡ set_in (core_of core.now) }
{
    reads_lists();
    match &core.form {
        Form::Progn(parts) => given_first(parts),
        _ => given_by(core),
    }
}

/// What a form defines: the symbol with the first of its functions.
fn defined(core: &Core) -> Option<Defined>
    ensures { result ≡ defined_with (set_in (core_of core.now)) }
{
    given(core).map(|name| Defined { name, lambda: 0 })
}

/// A converter for a form, with nothing but the form's own code begun.
///
/// # Errors
/// Want of memory; told as that: the form has 4,294,967,296 closed copies or more.
fn begin(alloc: Global, form: &TopForm) -> Result<Converter, AllocError>
    ensures { IfOk result (λ c. Begun (top_of form.now) c.built) }
{
    let Some(copies) = closed_copies(alloc, form, u32::MAX)? else {
        return Err(AllocError);
    };
    let built = Builder::new(alloc, form.nodes, copies, defined(&form.core), form.place)?;
    Ok(Converter {
        alloc,
        built,
        entries: Vec::new(alloc),
    })
}

/// The flow graph of a form of a program. It is the form's graph, and keeps what the form means
/// among any other forms and their graphs. Every assertion in it is checked; two blocks follow each
/// block that ends with an If, at most one each other block; each block belongs to one function.
///
/// # Errors
/// Want of memory alone.
pub fn convert_form(alloc: Global, form: &TopForm, program: &Program) -> Result<Graph, AllocError>
    requires { IsFormOf program.now form.now }
    ensures graph { IfOk result (λ g. IsGraphOf (symbols_of program.now) (top_of form.now) (graph_of g)) }
    ensures keeps { IfOk result (λ g. GraphKeeps program.now form.now (graph_of g)) }
    ensures made { IfOk result (λ g. IsWellMade (graph_of g)) }
{
    graphs_keep_forms();
    numbered_functions();
    program.prelude();
    let texts = functions_in(alloc, &form.core)?;
    let mut converter = begin(alloc, form)?;
    let names = converter.names(form, program, &texts)?;
    converter.own_code(&names, form)?;
    converter.codes(&names, &texts)?;
    converter.built.finish()
}

impl Converter {
    /// Adds the variables and functions of a form, of which these are the texts.
    pub(crate) fn names(
        &mut self,
        form: &TopForm,
        program: &Program,
        all: &[Text<'_>],
    ) -> Result<Names, AllocError>
        ensures { IfOk result (λ names. map text_of all.now ≡ functions_in_tree (core_of form.now.core) → NamesMade (symbols_of program.now) (top_of form.now) names self.old.built self.new.built) }
    {
        let facts = form_facts(self.alloc, form, program.symbols())?;
        let texts = form_names(self.alloc, &form.core)?;
        let mut binders = Vec::new(self.alloc);
        note(&mut binders, &form.core)?;
        let variables = self.variables(&facts, &texts, &binders)?;
        let functions = self.functions(&facts, &variables, all)?;
        Ok(Names {
            facts,
            texts,
            variables,
            functions,
        })
    }

    /// Converts a form itself, and returns its values.
    pub(crate) fn own_code(&mut self, names: &Names, form: &TopForm) -> Result<(), AllocError>
        ensures { OnOk result (OwnCodes names.now (core_of form.now.core) self.old.built self.new.built) }
    {
        let value = self.built.cont()?;
        let mut body = Setting::value(false, 0, value);
        body.tail = true;
        self.convert(names, &form.core, body)?;
        self.plain(NodeKind::Return { value }, None, 0, form.place)?;
        Ok(())
    }

    /// Converts the functions of these texts.
    pub(crate) fn codes(&mut self, names: &Names, texts: &[Text<'_>]) -> Result<(), AllocError>
        ensures { OnOk result (CodesAll names.now (map text_of texts.now) (length texts.now) self.old.built self.new.built) }
    {
        for number in 0..texts.len() {
            let made = names.function(count(number)?)?;
            let text = texts[number];
            self.code(names, text.place, text.lambda, made.block)?;
        }
        Ok(())
    }
}
