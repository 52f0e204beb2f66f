//! That edits of a flow graph keep its meaning, whatever graphs run around it.
#![tactic(auto)]

mod laws;

pub use laws::{blocks_kept, deletion_kept, retiring_kept, substitution_kept};
