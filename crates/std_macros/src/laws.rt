//! Laws of words and macros. The functions do nothing: a call of one gives its laws.

ghost use Rattle.std_macros.specs.Macros.{AreTheMacros, EachMacroIsNamed, OthersAreNone};
ghost use Rattle.std_macros.specs.Words.{EachWordIsNamed};

/// Each word that the forms are made of is the symbol of its name.
pub fn words_are_named()
    ensures { EachWordIsNamed }
{}

/// Each built-in macro is that of its name, they are all the names of the table of macros, and no
/// other base name has one.
pub fn macros_are_named()
    ensures each { EachMacroIsNamed }
    ensures all { AreTheMacros }
    ensures others { OthersAreNone }
{}
