// The word variables of a form.
ghost use Rattle.std.specs.Prelude.{◌≡◌, ◌++◌, ◌<◌, ℕ, List, [], OnOk, IfOk, flat_map, length};
ghost use Rattle.core_form.specs.Reading.{core_of, cores_list, parameter_of};
ghost use Rattle.core_form.specs.Facts.{union, without, repeat, variable_under, variables_under, declared_integer};
ghost use Rattle.closed_copies.specs.Table.{as_list};
ghost use Rattle.form_facts.specs.Parts.{read_by, taken_by};
ghost use Rattle.form_facts.specs.Read.{part_of, parts_list, those_parameters};
ghost use Rattle.form_facts.specs.Given.{LosesFirst};
ghost use Rattle.form_facts.specs.Words.{kinds_of, taken_in as taken_of, kept_words, next_words, declared_of, settled_words};

use crate::counts::Counts;
use crate::given::{given_in, lose};
use crate::numbers::{Numbers, others_of};
use crate::parameters::parameters_in;
use crate::parts::Part;
use crate::samples::is_within_integers;
use core_form::{Core, Form, Parameter, Variable};
use lisp_base::SymTab;
use std::alloc::{AllocError, Global};

/// The variables that are read.
fn reads_in(alloc: Global, parts: &[Part<'_>]) -> Result<Vec<u32>, AllocError>
    ensures { IfOk result (λ numbers. numbers.items ≡ flat_map read_by (parts_list parts.now)) }
{
    let mut numbers = Vec::new(alloc);
    for part in parts {
        if let Part::Read(number) = *part {
            numbers.push(number)?;
        }
    }
    Ok(numbers)
}

/// The variable to which a form refers, under any number of types that it must have.
pub(crate) fn variable_in(core: &Core) -> Option<u32>
    ensures { as_list result ≡ variable_under (core_of core.now) }
{
    match &core.form {
        Form::Local(number) => Some(*number),
        Form::The(_, part) => variable_in(part),
        Form::Quote(_)
        | Form::SetLocal(_, _)
        | Form::Global(_)
        | Form::SetGlobal(_, _)
        | Form::If(_, _, _)
        | Form::Progn(_)
        | Form::Let(_, _)
        | Form::Lambda(_)
        | Form::Labels(_, _)
        | Form::CallLocal(_, _)
        | Form::CallGlobal(_, _)
        | Form::Funcall(_, _)
        | Form::Apply(_, _)
        | Form::MvCall(_, _)
        | Form::FunLocal(_)
        | Form::FunGlobal(_)
        | Form::SetFun(_, _)
        | Form::Primitive(_, _)
        | Form::Is(_, _)
        | Form::Block(_, _, _)
        | Form::ReturnFrom(_, _)
        | Form::Tagbody(_)
        | Form::Go(_)
        | Form::Catch(_, _)
        | Form::Throw(_, _)
        | Form::Unwind(_, _)
        | Form::Values(_)
        | Form::MvProg1(_, _) => None,
    }
}

fn note_under(numbers: &mut Vec<u32>, core: &Core) -> Result<(), AllocError>
    ensures { OnOk result (numbers.new.items ≡ numbers.old.items ++ variable_under (core_of core.now)) }
{
    if let Some(number) = variable_in(core) {
        numbers.push(number)?;
    }
    Ok(())
}

fn note_all_under(numbers: &mut Vec<u32>, cores: &[Core]) -> Result<(), AllocError>
    ensures { OnOk result (numbers.new.items ≡ numbers.old.items ++ variables_under (cores_list cores.now)) }
{
    for core in cores {
        note_under(numbers, core)?;
    }
    Ok(())
}

/// Notes the references that a part takes as words, where these are the word variables.
fn note_taken(numbers: &mut Vec<u32>, part: Part<'_>, words: &Numbers) -> Result<(), AllocError>
    ensures { OnOk result (numbers.new.items ≡ numbers.old.items ++ taken_by words.now (part_of part.entry)) }
{
    match part {
        Part::Compute(operands) => note_all_under(numbers, operands),
        Part::Set(number, value) => {
            if words.has(number) {
                note_under(numbers, value)
            } else {
                Ok(())
            }
        }
        Part::Read(_) | Part::Leave(_) | Part::Go(_) | Part::Bind(_) | Part::Make(_) => Ok(()),
    }
}

fn taken_in(alloc: Global, parts: &[Part<'_>], words: &Numbers) -> Result<Vec<u32>, AllocError>
    ensures { IfOk result (λ numbers. numbers.items ≡ taken_of words.now (parts_list parts.now)) }
{
    let mut numbers = Vec::new(alloc);
    for part in parts {
        note_taken(&mut numbers, *part, words)?;
    }
    Ok(numbers)
}

/// The words of which each reference is taken.
fn kept(
    alloc: Global,
    words: &[u32],
    reads: &Counts,
    taken: &Counts,
) -> Result<Vec<u32>, AllocError>
    ensures { IfOk result (λ next. next.items ≡ kept_words reads.now taken.now words.now) }
{
    let mut next = Vec::new(alloc);
    for word in words {
        if reads.times(*word) == taken.times(*word) {
            next.push(*word)?;
        }
    }
    Ok(next)
}

/// One round more: the words from those before.
fn narrow(
    alloc: Global,
    words: &[u32],
    reads: &Counts,
    parts: &[Part<'_>],
) -> Result<Vec<u32>, AllocError>
    ensures { IfOk result (λ next. next.items ≡ next_words reads.now (parts_list parts.now) words.now) }
{
    let among = Numbers::of(alloc, words)?;
    let taken = Counts::of(alloc, taken_in(alloc, parts, &among)?)?;
    kept(alloc, words, reads, &taken)
}

/// What is lost of the words in so many rounds, one at least, where that much is lost in the first.
/// After it a word is lost exactly where it is given to one that was lost in the round before.
fn lose_further(
    alloc: Global,
    rounds: usize,
    declared: &[u32],
    parts: &[Part<'_>],
    first: &[u32],
) -> Result<Numbers, AllocError>
    ensures { IfOk result (λ lost. (reads : List ℕ) → LosesFirst reads (parts_list parts.now) declared.now first.now → 0 < rounds → without declared.now lost ≡ repeat rounds (next_words reads (parts_list parts.now)) declared.now) }
{
    let given = given_in(alloc, parts)?;
    let all = Numbers::of(alloc, declared)?;
    let mut just = Numbers::of(alloc, first)?;
    let mut lost = Numbers::of(alloc, first)?;
    for _round in 1..rounds {
        just = lose(alloc, &given, &all, &mut lost, &just)?;
    }
    Ok(lost)
}

/// What is lost of the words in the first round.
fn lose_first(
    alloc: Global,
    declared: &[u32],
    reads: &Counts,
    parts: &[Part<'_>],
) -> Result<Vec<u32>, AllocError>
    ensures { IfOk result (λ first. LosesFirst reads.now (parts_list parts.now) declared.now first.items) }
{
    let kept = narrow(alloc, declared, reads, parts)?;
    let among = Numbers::of(alloc, &kept)?;
    others_of(alloc, declared, &among)
}

/// The words after as many rounds as there are of them.
fn settle(
    alloc: Global,
    declared: &[u32],
    reads: &Counts,
    parts: &[Part<'_>],
) -> Result<Vec<u32>, AllocError>
    ensures { IfOk result (λ words. words.items ≡ repeat (length declared.now) (next_words reads.now (parts_list parts.now)) declared.now) }
{
    if declared.is_empty() {
        return Ok(Vec::new(alloc));
    }
    let first = lose_first(alloc, declared, reads, parts)?;
    let lost = lose_further(alloc, declared.len(), declared, parts, &first)?;
    others_of(alloc, declared, &lost)
}

fn note_declared(
    alloc: Global,
    numbers: &mut Vec<u32>,
    parameter: &Parameter,
    symbols: &SymTab,
) -> Result<(), AllocError>
    ensures { OnOk result (numbers.new.items ≡ numbers.old.items ++ declared_integer (kinds_of symbols.now) (parameter_of parameter.now)) }
{
    if let Variable::Lexical { number, .. } = parameter.variable {
        if is_within_integers(alloc, &parameter.types, symbols)? {
            numbers.push(number)?;
        }
    }
    Ok(())
}

/// The variables whose types are within the integers.
fn declared_in(
    alloc: Global,
    parameters: &[&Parameter],
    symbols: &SymTab,
) -> Result<Vec<u32>, AllocError>
    ensures { IfOk result (λ numbers. numbers.items ≡ declared_of (kinds_of symbols.now) (those_parameters parameters.now)) }
{
    let mut numbers = Vec::new(alloc);
    for parameter in parameters {
        note_declared(alloc, &mut numbers, *parameter, symbols)?;
    }
    Ok(numbers)
}

/// The word variables of a form of these parts, where these are closed over somewhere.
///
/// # Errors
/// Want of memory alone.
pub fn words_in(
    alloc: Global,
    parts: &[Part<'_>],
    closed: &Numbers,
    symbols: &SymTab,
) -> Result<Numbers, AllocError>
    ensures { IfOk result (λ words. words ≡ union [] (settled_words (kinds_of symbols.now) closed.now (parts_list parts.now))) }
{
    let parameters = parameters_in(alloc, parts)?;
    let declared = declared_in(alloc, &parameters, symbols)?;
    let open = others_of(alloc, &declared, closed)?;
    let reads = Counts::of(alloc, reads_in(alloc, parts)?)?;
    let words = settle(alloc, &open, &reads, parts)?;
    Numbers::of(alloc, &words)
}
