//! Tokens.

use crate::fault::ReadKind;

/// What stands before a form and makes a list of two of it.
#[derive(Clone, Copy, PartialEq, Eq, Debug)]
pub enum Prefix {
    /// `'`
    Quote,
    /// `#'`
    Function,
    /// A backquote.
    Backquote,
    /// `,`
    Comma,
    /// `,@`
    Splice,
}

// A form that is no list, vector or prefix, over the characters that spell it.
#[derive(Clone, Copy)]
pub(crate) enum Atom<'a> {
    Integer(i128),
    Character(char),
    // What stands between the quotes.
    Text(&'a [char]),
    Symbol(&'a [char]),
    // Without the colon.
    Keyword(&'a [char]),
}

#[derive(Clone, Copy)]
pub(crate) enum Token<'a> {
    Open,
    // #(
    Vector,
    Close,
    Dot,
    Prefix(Prefix),
    Atom(Atom<'a>),
    // What is no token, and why; an open string or comment is `Bad(Eof)`.
    Bad(ReadKind),
}

// What comes first in a text: a token, or white space or a comment, and how many characters it takes.
#[derive(Clone, Copy)]
pub(crate) struct Piece<'a> {
    pub(crate) token: Option<Token<'a>>,
    pub(crate) size: usize,
}
