//! The tree that a form expands to, or its first refusal.
#![tactic(auto)]

mod beginnings;
mod bindings;
mod bodies;
mod calls;
mod chains;
mod entering;
mod expander;
mod expanding;
mod fault;
mod forms;
mod functions;
mod making;
mod nodes;
mod operators;
mod parameter_lists;
mod parameters;
mod plans_of_control;
mod plans_of_definitions;
mod plans_of_functions;
mod plans_of_variables;
mod scope;
mod sizes;
mod sketch;
mod symbols;
mod world;

pub use bodies::{Contents, contents_of};
pub use entering::Mark;
pub use expander::Expander;
pub use fault::Fault;
pub use scope::{Check, Scope};
pub use world::World;
