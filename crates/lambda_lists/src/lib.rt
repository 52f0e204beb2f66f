//! Lambda lists: their parameters, and the forms that `&KEY` parameters stand for.
#![tactic(auto)]

mod key_forms;
mod laws;
mod lists;
mod parameters;
mod reading;
mod templates;
mod variables;

pub use key_forms::{KeyFault, KeyForms, make_key_forms};
pub use laws::sections_are_those;
pub use lists::{Binding, Defaulted, LambdaList, SymIds};
pub use reading::read_lambda_list;

#[cfg(test)]
mod tests;
