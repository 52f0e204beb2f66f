//! What the forms of a file expand to: a program, or the file's first refusal.
#![tactic(auto)]

mod fault;
mod files;
mod preludes;
mod shapes;
mod small;
mod tops;
mod trees;

pub use fault::ExpandFault;
pub use files::expand_file;
