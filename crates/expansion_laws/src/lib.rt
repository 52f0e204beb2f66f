//! Laws of what the forms of a file expand to. Each function does nothing: a call of it gives its
//! laws.
#![tactic(auto)]

mod checked_trees;
mod definitions;
mod lawful_trees;
mod made_trees;
mod plans;
mod tested;
mod there;

pub use checked_trees::{symbols_have_functions, trees_are_checked};
pub use definitions::forms_define;
pub use lawful_trees::{
    lawful_trees_stay_lawful, places_are_there, tops_have_scopes, trees_are_lawful,
};
pub use made_trees::{trees_are_counted, trees_are_made, trees_stay_in_place};
pub use plans::plans_are_derived;
pub use tested::{declared_are_tested, top_has_no_lexical};
pub use there::{
    data_are_there, growth_keeps, macros_are_there, parts_are_there, scopes_are_there,
    there_are_data,
};
