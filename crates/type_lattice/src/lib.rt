//! Exact sets of values of the language, and the operations on them.
#![tactic(auto)]

mod kinds;
mod made;
mod named;
mod ranges;
mod spec;
mod ty;
mod walk;

pub use ty::Ty;

#[cfg(test)]
mod tests;
