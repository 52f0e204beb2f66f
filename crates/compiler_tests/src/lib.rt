//! Tests of the images that sources are compiled to.
#![tactic(auto)]

#[cfg(test)]
mod images;
