//! The image of a program: its code, its statics, its entry and what is known of its source, read
//! from bytes and written as bytes.
#![tactic(auto)]

mod fault;
mod fields;
mod format;
mod image;
mod laws;
mod reading;
mod rows;
mod tables;
mod writing;

pub use fault::{ImageFault, ImageKind};
pub use image::Image;
pub use laws::{what_is_read_is_spelled, what_is_spelled_is_read};
pub use reading::read;
pub use writing::write;

#[cfg(test)]
mod tests;
