//! Type specifiers: the forms that write them, the values that they hold, their texts and sizes.
#![tactic(auto)]

mod fault;
mod laws;
mod membership;
mod operands;
mod parse;
mod size;
mod text;
mod words;

pub use fault::TypeFault;
pub use laws::one_specifier;
pub use membership::has;
pub use parse::parse_type;
pub use size::spec_size;
pub use text::spec_text;
pub use words::word_of;

#[cfg(test)]
mod tests;
