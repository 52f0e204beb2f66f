//! The functions of the language that are written in Lisp: their text, which is compiled with each
//! program, and their names.
#![tactic(auto)]

mod names;
mod text;

pub use names::prelude_names;
pub use text::prelude_text;

#[cfg(test)]
mod tests;
