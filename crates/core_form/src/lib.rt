//! The tree of a program, and what a program means.
#![tactic(auto)]

mod build;
mod checking;
mod counting;
mod faults;
mod laws;
mod node_laws;
mod programs;
mod scopes;
mod text;
mod text_heads;
mod text_page;
mod text_variables;
mod text_words;
mod tree;

pub use build::{call, checked, choice, quote, sequence};
pub use checking::check_core;
pub use faults::Fault;
pub use laws::{
    forms_are_layers, fuel_taken, more_fuel_keeps, never_astray, programs_are_layers, reads_lists,
};
pub use node_laws::reads_nodes;
pub use programs::{Program, Tops};
pub use text::{core_text, forms_text};
pub use tree::{
    Binding, Core, Definition, Form, Item, Lambda, Optional, Parameter, TopForm, Variable,
};
