//! What stands under the numbers of a top-level form: its functions in the order of the text, its
//! blocks, tags and local functions.
#![tactic(auto)]

mod laws;
mod lists;
mod names;
mod numbered;
mod parts;
#[cfg(test)]
mod tests;

pub use laws::numbered_functions;
pub use names::{FormNames, form_names, functions_in};
pub use parts::{TagName, Text};
