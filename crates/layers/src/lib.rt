//! Layers: a program, its graphs, its code and its image are each some code of which output, status
//! and needs are seen at each moment of a run. Here stands what it is for one layer to keep what
//! another means, how that composes and can be shown, and what it gives in the end.
#![tactic(auto)]

mod laws;

pub use laws::{
    keeps_along, keeps_at_each_size, keeps_composes, keeps_itself, keeps_of_follows,
    keeps_of_simulation, keeps_pace_of_keeps, never_astray_kept, shows_nothing_else_of_keeps,
};
