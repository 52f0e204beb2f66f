//! The instructions of RV64IM that the compiler uses, their words, and what a machine does with them.
#![tactic(auto)]

pub mod codes;
pub mod ending;
pub mod fields;
mod formats;
pub mod instr;
pub mod words;
