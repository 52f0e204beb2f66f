//! What an image knows of the source of its code: texts, the places of its sites, its functions
//! and its variables.
#![tactic(auto)]

mod rows;
mod rules;
mod tables;

pub use rows::{FunRow, Location, LocationClass, Site, SitePlace, SiteRow, VarRow};
pub use rules::is_above;
pub use tables::Debug;

#[cfg(test)]
mod tests;
