//! Laws of what is there. The functions do nothing: a call of one gives its laws.

ghost use Rattle.expansion_laws.specs.There.{DataAreThere, ThereAreData, TopsHaveData, TreesStay, ValuesStay};
ghost use Rattle.expansion_laws.specs.ThereParts.{BodiesAreThere, DataAreValues, DeclarationsHaveScopes, DeclarationsStay, ElementsAreThere, FormsHaveScopes, MacrosAreThere, PairsAreThere, ScopesStay, TypesAreLawful};

/// A form that is there, in a sound world, expands to a tree whose symbols, types and data are
/// there, and the world after it is sound and holds what it held.
pub fn data_are_there()
    ensures { DataAreThere }
{}

/// What is there stays there where a table and a heap grow.
pub fn growth_keeps()
    ensures trees { TreesStay }
    ensures values { ValuesStay }
    ensures scopes { ScopesStay }
    ensures declarations { DeclarationsStay }
{}

/// What a value that is there reaches is a datum, so a tree whose parts are there has lawful
/// types, symbols, data and tags; and a value that reaches data alone is there.
pub fn there_are_data()
    ensures values { ThereAreData }
    ensures tops { TopsHaveData }
    ensures given { DataAreValues }
{}

/// What is read of a form that is there is there: the parts of a cons, the elements of a list, the
/// declarations and forms of a body. A type that any form writes is lawful.
pub fn parts_are_there()
    ensures pairs { PairsAreThere }
    ensures elements { ElementsAreThere }
    ensures bodies { BodiesAreThere }
    ensures types { TypesAreLawful }
{}

/// The form that a macro form gives is there.
pub fn macros_are_there()
    ensures { MacrosAreThere }
{}

/// All is there in the scope of a form, and in the scope within declarations.
pub fn scopes_are_there()
    ensures forms { FormsHaveScopes }
    ensures declarations { DeclarationsHaveScopes }
{}
