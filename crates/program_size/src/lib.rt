//! Which functions of the prelude a program holds, and whether it is too large.
#![tactic(auto)]

mod marks;
mod mentioned;
mod prelude_functions;
mod sizes;

pub use prelude_functions::PreludeFunction;
pub use sizes::Sizes;

#[cfg(test)]
mod tests;
