// Laws of type specifiers and of the base names. The functions do nothing: a call gives the laws.

ghost use Rattle.lisp_base.specs.Constants.{ConstantsAreBaseSymbols};
ghost use Rattle.lisp_base.specs.Laws.{BaseNamesAreFound, BaseNamesStand, BaseSymbolsAreFound, ReadsAnd, ReadsOr, SortsAreBaseNames};

/// A conjunction and a disjunction are read by the lists that they hold.
pub fn reads_specs()
    ensures all { ReadsAnd }
    ensures some { ReadsOr }
{}

/// Where a list of symbols begins with those of the base names, each of these stands at its own
/// number, and is found there by its name.
pub fn base_names_stand()
    ensures stand { BaseNamesStand }
    ensures found { BaseNamesAreFound }
    ensures computed { BaseSymbolsAreFound }
{}

/// Each name of a sort is a base name, and the primitives' names are those of their table.
pub fn sorts_are_base_names()
    ensures { SortsAreBaseNames }
{}

/// Each constant of `base_symbols` is the symbol of its base name.
pub fn constants_are_base_symbols()
    ensures { ConstantsAreBaseSymbols }
{}
