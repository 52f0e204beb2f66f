//! Laws of the types that are declared of variables.

ghost use Rattle.expansion_laws.specs.Tested.{DeclarationsBindNoLexical, TopHasNoLexical, TypesAreTested};

/// In the tree of a form at the top, where the numbers that it binds count up, each value that a
/// variable takes is tested for each of the types that are declared of it.
pub fn declared_are_tested()
    ensures { TypesAreTested }
{}

/// At the top of a file no name means a lexical variable, and declarations there bind none.
pub fn top_has_no_lexical()
    ensures top { TopHasNoLexical }
    ensures declarations { DeclarationsBindNoLexical }
{}
