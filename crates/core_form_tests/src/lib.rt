//! Tests of trees and of their texts.
#![tactic(auto)]

#[cfg(test)]
mod texts;
#[cfg(test)]
mod trees;
