//! What the forms of a file expand to, and the laws of the trees there. Each function does nothing: a
//! call of it gives its law.
#![tactic(auto)]

mod laws;

pub use laws::{bodies_are_sound, preludes_define, texts_are_there, trees_are_lawful};
