//! Small forms and what they expand to.

ghost use Rattle.expansion.specs.Examples.{Examples};
ghost use Rattle.expansion.specs.FurtherExamples.{FurtherExamples};

/// Forms of each operator, and of some macros, expand to the trees that are stated of them, or are
/// refused as is stated, each at its place. The function does nothing.
pub fn examples_expand()
    ensures small { Examples }
    ensures further { FurtherExamples }
{}
