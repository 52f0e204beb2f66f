//! The listing of code: a line of text for each instruction word.
#![tactic(auto)]

mod names;
mod numbers;
pub mod text;
