//! The texts of values and of errors that a machine ends with, read from its memory.
#![tactic(auto)]

mod errors;
mod kinds;
mod values;

pub use errors::error_text;
pub use values::value_text;
