//! The compiler of the first path: from a source to the bytes of an image, where all nodes of its program are built.
#![tactic(auto)]

mod built;
mod bytes;
mod code;
mod emit;
mod fault;
pub mod laws;
mod sites;
pub mod slot;
mod source;
mod statics;
mod templates;

pub use built::first_unbuilt;
pub use emit::program_image;
pub use fault::CompileFault;
pub use source::compile;
