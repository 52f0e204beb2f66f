// What is bound round a node.
ghost use Rattle.std.specs.Prelude.{◌≡◌, [], ◌∷◌, option_map};
ghost use Rattle.core_form.specs.Facts.{has_number, parameter_number, binding_parameters, if_given};
ghost use Rattle.core_form.specs.Reading.{parameter_of};
ghost use Rattle.core_form.specs.Checked.{parameter_numbers, optional_numbers, optionals_numbers, function_numbers, tag_numbers};
ghost use Rattle.core_form.specs.ListReading.{parameters_list, bindings_list, optionals_list, definitions_list, items_list};
ghost use Rattle.core_form.specs.Checking.{scope_of};

use crate::tree::{Binding, Definition, Item, Optional, Parameter, Variable};

/// What is bound round a node, the innermost first.
#[derive(Clone, Copy)]
pub enum Scope<'a> {
    /// Nothing.
    Top,
    /// The variables of a `Let`.
    Bindings(&'a [Binding], &'a Scope<'a>),
    /// The required parameters of a function.
    Required(&'a [Parameter], &'a Scope<'a>),
    /// The variables of its optional parameters.
    Optionals(&'a [Optional], &'a Scope<'a>),
    /// The variable of its further arguments.
    Rest(&'a Parameter, &'a Scope<'a>),
    /// Local functions.
    Functions(&'a [Definition], &'a Scope<'a>),
    /// A block.
    Block(u32, &'a Scope<'a>),
    /// The tags of a `Tagbody`.
    Tags(&'a [Item], &'a Scope<'a>),
}

/// Whether a parameter is the variable of a number.
fn is_variable(parameter: &Parameter, number: u32) -> bool
    ensures { result ≡ has_number number (parameter_number (parameter_of parameter.now)) }
{
    match parameter.variable {
        Variable::Lexical {
            number: variable,
            ..
        } => number == variable,
        Variable::Special(_) => false,
    }
}

#[tactic(auto, using(crate::proofs::Numbers::has_append))]
fn is_among_bindings(bindings: &[Binding], number: u32) -> bool
    ensures { result ≡ has_number number (parameter_numbers (binding_parameters (bindings_list bindings.now))) }
{
    for binding in bindings {
        if is_variable(&binding.parameter, number) {
            return true;
        }
    }
    false
}

#[tactic(auto, using(crate::proofs::Numbers::has_append))]
fn is_among_parameters(parameters: &[Parameter], number: u32) -> bool
    ensures { result ≡ has_number number (parameter_numbers (parameters_list parameters.now)) }
{
    for parameter in parameters {
        if is_variable(parameter, number) {
            return true;
        }
    }
    false
}

/// Whether a variable is that of an optional parameter or tells whether it was given.
#[tactic(auto, using(crate::proofs::Numbers::has_append))]
fn is_of_optional(optional: &Optional, number: u32) -> bool
    ensures { result ≡ has_number number (optional_numbers (parameter_of optional.now.parameter) (option_map parameter_of optional.now.supplied)) }
{
    if is_variable(&optional.parameter, number) {
        return true;
    }
    match &optional.supplied {
        Some(supplied) => is_variable(supplied, number),
        None => false,
    }
}

#[tactic(auto, using(crate::proofs::Numbers::has_append))]
fn is_among_optionals(optionals: &[Optional], number: u32) -> bool
    ensures { result ≡ has_number number (optionals_numbers (optionals_list optionals.now)) }
{
    for optional in optionals {
        if is_of_optional(optional, number) {
            return true;
        }
    }
    false
}

#[tactic(auto, using(crate::proofs::Numbers::has_append))]
fn is_among_functions(definitions: &[Definition], number: u32) -> bool
    ensures { result ≡ has_number number (function_numbers (definitions_list definitions.now)) }
{
    for definition in definitions {
        if number == definition.number {
            return true;
        }
    }
    false
}

/// Whether an item is the tag of a number.
fn is_tag(item: &Item, number: u32) -> bool
    ensures { result ≡ has_number number (tag_numbers (items_list (item.now ∷ []))) }
{
    match item {
        Item::Tag(tag, _) => number == *tag,
        Item::Step(_) => false,
    }
}

#[tactic(auto, using(crate::proofs::Numbers::has_append))]
fn is_among_tags(items: &[Item], number: u32) -> bool
    ensures { result ≡ has_number number (tag_numbers (items_list items.now)) }
{
    for item in items {
        if is_tag(item, number) {
            return true;
        }
    }
    false
}

/// Whether a variable is bound.
#[tactic(auto, using(crate::proofs::Numbers::has_append))]
pub fn has_variable(scope: &Scope<'_>, number: u32) -> bool
    ensures { result ≡ has_number number (scope_of scope.now).variables }
{
    match scope {
        Scope::Top => false,
        Scope::Bindings(bindings, outer) => {
            is_among_bindings(bindings, number) || has_variable(outer, number)
        }
        Scope::Required(parameters, outer) => {
            is_among_parameters(parameters, number) || has_variable(outer, number)
        }
        Scope::Optionals(optionals, outer) => {
            is_among_optionals(optionals, number) || has_variable(outer, number)
        }
        Scope::Rest(parameter, outer) => {
            is_variable(parameter, number) || has_variable(outer, number)
        }
        Scope::Functions(_, outer) | Scope::Block(_, outer) | Scope::Tags(_, outer) => {
            has_variable(outer, number)
        }
    }
}

/// Whether a local function is bound.
#[tactic(auto, using(crate::proofs::Numbers::has_append))]
pub fn has_function(scope: &Scope<'_>, number: u32) -> bool
    ensures { result ≡ has_number number (scope_of scope.now).functions }
{
    match scope {
        Scope::Top => false,
        Scope::Functions(definitions, outer) => {
            is_among_functions(definitions, number) || has_function(outer, number)
        }
        Scope::Bindings(_, outer)
        | Scope::Required(_, outer)
        | Scope::Optionals(_, outer)
        | Scope::Rest(_, outer)
        | Scope::Block(_, outer)
        | Scope::Tags(_, outer) => has_function(outer, number),
    }
}

/// Whether a block is bound.
#[tactic(auto, using(crate::proofs::Numbers::has_append))]
pub fn has_block(scope: &Scope<'_>, number: u32) -> bool
    ensures { result ≡ has_number number (scope_of scope.now).blocks }
{
    match scope {
        Scope::Top => false,
        Scope::Block(block, outer) => number == *block || has_block(outer, number),
        Scope::Bindings(_, outer)
        | Scope::Required(_, outer)
        | Scope::Optionals(_, outer)
        | Scope::Rest(_, outer)
        | Scope::Functions(_, outer)
        | Scope::Tags(_, outer) => has_block(outer, number),
    }
}

/// Whether a tag is bound.
#[tactic(auto, using(crate::proofs::Numbers::has_append))]
pub fn has_tag(scope: &Scope<'_>, number: u32) -> bool
    ensures { result ≡ has_number number (scope_of scope.now).tags }
{
    match scope {
        Scope::Top => false,
        Scope::Tags(items, outer) => is_among_tags(items, number) || has_tag(outer, number),
        Scope::Bindings(_, outer)
        | Scope::Required(_, outer)
        | Scope::Optionals(_, outer)
        | Scope::Rest(_, outer)
        | Scope::Functions(_, outer)
        | Scope::Block(_, outer) => has_tag(outer, number),
    }
}
