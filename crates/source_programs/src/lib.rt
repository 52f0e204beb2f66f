//! The program that a source is: its text is read, and what was read is expanded.
#![tactic(auto)]

mod fault;
mod programs;

pub use fault::ProgramFault;
pub use programs::program_of;
