// The functions of the prelude, as they come to be counted.
use core_form::TopForm;
use lisp_base::SymId;

/// A function of the prelude: its name, the form that defines it, and the number of closed copies
/// in this form.
#[derive(Debug, Drop)]
pub struct PreludeFunction {
    pub name: SymId,
    pub form: TopForm,
    pub copies: u32,
}
