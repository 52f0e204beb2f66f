//! Two sets of integers walked side by side.

ghost use Rattle.std.specs.Prelude.{◌≡◌};
ghost use Rattle.type_lattice.specs.Walks.{next_border as next_of, inside_from, left_from, combined};

/// How two sets become one.
#[derive(Clone, Copy, PartialEq, Eq, Debug)]
pub(crate) enum Combination {
    /// What is in one of them.
    Union,
    /// What is in both.
    Meet,
}

impl Combination {
    /// Whether something is in the combined set that is or isn't in the two.
    pub(crate) fn of(self, x: bool, y: bool) -> bool
        ensures { result ≡ combined self x y }
    {
        match self {
            Combination::Union => x || y,
            Combination::Meet => x && y,
        }
    }
}

/// The least of the borders that are left of two sets.
pub(crate) fn next_border(a: &[i128], b: &[i128]) -> Option<i128>
    ensures { result ≡ next_of a.now b.now }
{
    match (a.first(), b.first()) {
        (None, None) => None,
        (None, Some(c)) => Some(*c),
        (Some(b), None) => Some(*b),
        (Some(b), Some(c)) => Some(if *b <= *c { *b } else { *c }),
    }
}

/// A walk through a set of integers, from border to border.
#[derive(Clone, Copy)]
pub(crate) struct Walk<'a> {
    /// Whether the numbers before the next border are in the set.
    pub(crate) inside: bool,
    /// The borders that are left.
    pub(crate) left: &'a [i128],
}

impl<'a> Walk<'a> {
    /// The walk once it has come to a number that no border that is left is below.
    pub(crate) fn pass(self, at: i128) -> Walk<'a>
        ensures inside { result.inside ≡ inside_from self.entry.inside self.entry.left.now at }
        ensures left { result.left.now ≡ left_from self.entry.left.now at }
    {
        match self.left.split_first() {
            Some((first, others)) if *first <= at => Walk {
                inside: !self.inside,
                left: others,
            },
            _ => self,
        }
    }
}
