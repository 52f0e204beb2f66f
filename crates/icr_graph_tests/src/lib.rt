//! Tests of graphs and of their edits.
#![tactic(auto)]

#[cfg(test)]
mod building;
#[cfg(test)]
mod editing;
#[cfg(test)]
mod regrouping;
