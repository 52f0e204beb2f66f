//! Laws of the trees that forms expand to.

ghost use Rattle.expansion_laws.specs.CheckedTrees.{SymbolsHaveFunctions, TreesAreChecked};

/// Where what names mean round a form is bound round its tree, each number that the tree uses is
/// bound round it, and its operators have as many forms as they may.
pub fn trees_are_checked()
    ensures { TreesAreChecked }
{}

/// What a form's tree gives to a symbol as its function is a function.
pub fn symbols_have_functions()
    ensures { SymbolsHaveFunctions }
{}
