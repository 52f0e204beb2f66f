//! A flow graph that is built from its first node to its last: what stands in it stays.
#![tactic(auto)]

mod builder;
mod flow;
mod functions;
mod nodes;
mod owners;
#[cfg(test)]
mod tests;

pub use builder::{Builder, NewFunction};
