//! Tests of the texts of values and errors.
#![tactic(auto)]

#[cfg(test)]
mod texts;
