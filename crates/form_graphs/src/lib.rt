//! Which flow graphs are those of forms, and that they do what the forms do.
#![tactic(auto)]

mod laws;

pub use laws::graphs_keep_forms;
