//! An emulator of the machine that `rv_isa` defines: it loads code and statics, and steps and runs them.
#![tactic(auto)]

mod calls;
mod effect;
mod effects;
pub mod events;
mod load;
mod loads;
pub mod machine;
mod memory;
mod moves;
mod operations;
mod parts;
mod readers;
mod regions;
mod registers;
#[cfg(test)]
mod results;
mod run;
pub mod sizes;
mod step;
#[cfg(test)]
mod tests;
mod words;
