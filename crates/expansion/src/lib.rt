//! What the forms of a file expand to: the definition of expansion, and its laws.
#![tactic(auto)]

mod examples;
mod heads;
mod kind;
mod laws;
mod operator;

pub use examples::examples_expand;
pub use heads::{Binary, Calling, Leaf, Many, Reach, Target};
pub use kind::ExpandKind;
pub use laws::operators_are_named;
pub use operator::{Direct, Operator};
