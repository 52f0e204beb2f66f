//! How trees are made, and what they count. The functions do nothing: a call of one gives its law.

ghost use Rattle.expansion_laws.specs.Counts.{TreesAreCounted};
ghost use Rattle.expansion_laws.specs.Made.{TreesAreMade};
ghost use Rattle.expansion_laws.specs.Places.{TreesStayInPlace};

/// Whatever tree a form expands to is made step by step: each node after what stands before it, its
/// parts from left to right.
pub fn trees_are_made()
    ensures made { TreesAreMade }
{}

/// A tree that a form expands to has as many nodes as were counted, and no more than a form may have;
/// what it binds is numbered one after another, and so are its functions.
pub fn trees_are_counted()
    ensures counted { TreesAreCounted }
{}

/// Where a scope has one place for all forms in it, all nodes and functions of a tree stand there.
pub fn trees_stay_in_place()
    ensures stays { TreesStayInPlace }
{}
