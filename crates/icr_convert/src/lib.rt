//! The flow graph of a top-level form, made from its tree.
#![tactic(auto)]

mod arguments;
mod binders;
mod binding;
mod calls;
mod choices;
mod cleanups;
mod converter;
mod copies;
mod data;
mod declaring;
mod exits;
mod extents;
mod forms;
mod functions;
mod names;
mod numbered;
mod parameters;
mod programs;
mod setting;
mod tagbodies;
mod whole;

pub use programs::convert_program;
pub use whole::convert_form;
