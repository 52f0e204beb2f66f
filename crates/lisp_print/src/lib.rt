//! The text of a value, as a view shows it, with limits for deep, long and circular ones.
#![tactic(auto)]

mod atoms;
mod laws;
mod letters;
mod page;
mod printing;

pub use laws::same_values_print_the_same;
pub use printing::{Limits, print};

#[cfg(test)]
mod tests;
