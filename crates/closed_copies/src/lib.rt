//! The number of closed copies of a top-level form, and what of its functions it is counted from.
#![tactic(auto)]

mod copies;
pub mod functions;
mod marks;
#[cfg(test)]
mod tests;
pub mod walk;

pub use copies::closed_copies;
