//! Source text to forms.
#![tactic(auto)]

mod around;
mod building;
mod fault;
mod forms;
mod laws;
mod level;
mod numbers;
mod pieces;
mod place;
mod progress;
mod read;
mod token;
mod words;

pub use fault::{ReadFault, ReadKind};
pub use forms::{Forms, TopRead};
pub use laws::one_answer;
pub use read::read_file;
pub use token::Prefix;

#[cfg(test)]
mod tests;
