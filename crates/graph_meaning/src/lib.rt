//! What the flow graphs of a program's forms mean: a machine that runs nodes and delivers values to continuations.
#![tactic(auto)]

mod laws;

pub use laws::graphs_are_layers;
