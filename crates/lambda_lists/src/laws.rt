//! Laws of lambda lists. The functions do nothing: a call of one gives its laws.

ghost use Rattle.lambda_lists.specs.Laws.{SectionsAreFound, SectionsWriteLists};

/// A lambda list is what its sections write with their words between them, and where sections hold
/// no word, the list that they write is parted into them again.
pub fn sections_are_those()
    ensures written { SectionsWriteLists }
    ensures found { SectionsAreFound }
{}
