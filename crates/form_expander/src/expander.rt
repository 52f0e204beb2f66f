//! What goes through the forms of a file.

use crate::scope::Scope;
use crate::world::World;

/// What an expansion knows and counts, and what stands around the form that is expanded.
#[derive(Drop)]
pub struct Expander {
    pub world: World,
    pub scope: Scope,
}
