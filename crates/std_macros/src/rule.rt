//! What a macro makes of its arguments.

use lisp_forms::{Template, Templates};

/// What a macro makes: so many fresh symbols, numbered from 0, then a first form, then the forms
/// that are put around it, each around the one before.
#[derive(Drop)]
pub(crate) struct Rule {
    pub(crate) fresh: usize,
    pub(crate) first: Template,
    pub(crate) around: Templates,
}
