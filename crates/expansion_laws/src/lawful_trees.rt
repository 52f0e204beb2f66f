//! The laws of trees together. The functions do nothing: a call of one gives its laws.

ghost use Rattle.expansion_laws.specs.LawfulTrees.{DeclarationsStayAtTop, FormsStayAtTop, LawfulTreesStay, PlacesHaveSymbols, PoliciesStayAtTop, ProgramsHold, ReachedPlacesAreThere, SymbolsHavePlaces, TopsAreBound, TopsAreEmpty, TopsAreSound, TreesAreLawful};

/// A form at the top of a file that is there, in a sound world that counts anew, expands to a built
/// and lawful tree; the world after it is sound and holds what it held.
pub fn trees_are_lawful()
    ensures { TreesAreLawful }
{}

/// A lawful tree is lawful in each later program, which holds more objects and symbols.
pub fn lawful_trees_stay_lawful()
    ensures trees { LawfulTreesStay }
    ensures programs { ProgramsHold }
{}

/// The scope at the top of a file is sound and has no lexical variable, local function, block or
/// tag, nor has that of a form there, within declarations, or under another policy.
pub fn tops_have_scopes()
    ensures empty { TopsAreEmpty }
    ensures sound { TopsAreSound }
    ensures forms { FormsStayAtTop }
    ensures declarations { DeclarationsStayAtTop }
    ensures policies { PoliciesStayAtTop }
    ensures bound { TopsAreBound }
{}

/// A place is there where its symbols are, and so are the places of all that a value reaches.
pub fn places_are_there()
    ensures places { PlacesHaveSymbols }
    ensures symbols { SymbolsHavePlaces }
    ensures reached { ReachedPlacesAreThere }
{}
