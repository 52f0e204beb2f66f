//! Lists of forms: the elements of a proper list, the places of forms, and templates of forms that
//! are still to be made.
#![tactic(auto)]

mod laws;
mod lists;
mod template;

pub use laws::{elements_are_those, reads_templates};
pub use lists::{cons_of, elements, is_nil, place_of_form};
pub use template::{Template, Templates, build, make_list};

#[cfg(test)]
mod tests;
