//! The forms of a file.

use lisp_base::Val;

/// A top-level form.
#[derive(Clone, Copy, PartialEq, Eq, Debug)]
pub struct TopRead {
    /// Its value.
    pub form: Val,
    /// The offset of its first byte.
    pub offset: u32,
}

/// The top-level forms of a file, in order.
pub type Forms = Vec<TopRead>;
