//! Laws of the names of operators. The function does nothing: a call of it gives its laws.

ghost use Rattle.expansion.specs.Named.{AreTheOperators, DirectCallsAreDirect, EachDirectIsNamed, EachOperatorIsNamed, LeftOutAreTheNames, ReservedAreTheNames};

/// Each operator, and each function whose calls are written otherwise, is the symbol of its Lisp
/// name. The operators are all special operators and all macros that define, declare or name a
/// package. Exactly the symbols with the names of the operators that are left out are left out, and
/// exactly those with the names of operators, macros, primitives, direct calls, functions of the
/// prelude and its helpers may not be defined by a file.
pub fn operators_are_named()
    ensures operators { EachOperatorIsNamed }
    ensures all_operators { AreTheOperators }
    ensures directs { EachDirectIsNamed }
    ensures direct_calls { DirectCallsAreDirect }
    ensures left_out { LeftOutAreTheNames }
    ensures reserved { ReservedAreTheNames }
{}
