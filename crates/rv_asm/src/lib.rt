//! An assembler: instructions with labels to the bytes of code.
#![tactic(auto)]

pub mod assembled;
pub mod assembler;
mod code;
pub mod fault;
pub mod item;
mod labels;
mod placing;
mod reach;
