//! What stands around the next form.

// What stands around the next form.
#[derive(Clone, Copy)]
pub(crate) struct Around {
    // How many levels of lists, vectors and prefixes are left.
    pub(crate) levels: usize,
    // Whether it stands in a backquote, in a comma's form there, in a vector there.
    pub(crate) quasi: bool,
    pub(crate) comma: bool,
    pub(crate) vector: bool,
}

// What stands around a form at top level.
pub(crate) const TOP: Around = Around {
    levels: 200,
    quasi: false,
    comma: false,
    vector: false,
};
