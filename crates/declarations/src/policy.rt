//! The policy.

/// What is asked of the code. The other qualities of ANSI Common Lisp have no effect.
#[derive(Clone, Copy, PartialEq, Eq, Debug)]
pub struct Policy {
    /// The quality `SPEED`, 0 to 3.
    pub speed: u8,
    /// The quality `SAFETY`, 0 to 3.
    pub safety: u8,
}

/// The policy that a file begins with.
pub const FIRST_POLICY: Policy = Policy {
    speed: 1,
    safety: 1,
};

/// A quality of the policy.
#[derive(Clone, Copy, PartialEq, Eq, Debug)]
pub(crate) enum Quality {
    Speed,
    Safety,
    /// One without effect.
    Other,
}

/// A quality with the number that it is set to.
#[derive(Clone, Copy, PartialEq, Eq, Debug)]
pub(crate) struct Setting {
    pub(crate) quality: Quality,
    pub(crate) level: u8,
}
