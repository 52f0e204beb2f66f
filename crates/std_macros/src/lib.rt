//! The built-in macros: each macro form gives another form, made of the words of the language.
#![tactic(auto)]

mod bindings;
mod cases;
mod conditionals;
mod expand;
mod laws;
mod loops;
mod macros;
mod making;
mod places;
mod quasiquotes;
mod rule;
mod syntax;
mod values;
mod words;

pub use expand::{MacroFault, builtin, macro_of_form};
pub use laws::{macros_are_named, words_are_named};
pub use macros::{Macro, is_builtin};
