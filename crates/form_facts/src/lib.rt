//! What has to be known of a top-level form before it becomes a flow graph: which variables have a
//! cell, which are words, and what each function closes over.
#![tactic(auto)]

mod cells;
mod counts;
mod facts;
mod functions;
mod given;
mod lists;
mod named;
mod numbers;
mod parameters;
mod parts;
mod samples;
#[cfg(test)]
mod tests;
mod words;

pub use facts::{FormFacts, form_facts};
