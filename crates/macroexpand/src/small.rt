//! A law of how large a program is.

ghost use Rattle.macroexpand.specs.Small.{GrownAreSmall};

use expansion_laws::trees_are_counted;

/// A program that has grown is small.
pub(crate) fn grown_are_small()
    ensures { GrownAreSmall }
{
    trees_are_counted();
}
