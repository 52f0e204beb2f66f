// Laws of layers. Each function does nothing: a call of it gives its law.

ghost use Rattle.layers.specs.Laws.{KeepsItself, KeepsComposes, KeepsAlong, KeepsAtEachSize, NeverAstrayKept, KeepsOfFollows, KeepsOfSimulation, ShowsNothingElseOfKeeps, KeepsPaceOfKeeps};

/// A layer that is never full keeps its own meaning.
pub fn keeps_itself()
    ensures { KeepsItself }
{}

/// Keeping composes, where the layer between is never full.
pub fn keeps_composes()
    ensures { KeepsComposes }
{}

/// Keeping composes along any number of layers of which none is ever full.
pub fn keeps_along()
    ensures { KeepsAlong }
{}

/// Among layers that are never full, the size of heap and stacks in keeping doesn't matter.
pub fn keeps_at_each_size()
    ensures { KeepsAtEachSize }
{}

/// What keeps a meaning that never goes astray never does.
pub fn never_astray_kept()
    ensures { NeverAstrayKept }
{}

/// A layer of steps keeps a layer by fuel where it comes to show exactly what that one shows with
/// each amount of fuel.
pub fn keeps_of_follows()
    ensures { KeepsOfFollows }
{}

/// A layer of steps keeps another where it simulates it on each input.
pub fn keeps_of_simulation()
    ensures { KeepsOfSimulation }
{}

/// A machine that keeps a program, and whose fuel rises by at most the number of nodes at each
/// instruction, shows nothing but what the program shows with the stated fuel.
pub fn shows_nothing_else_of_keeps()
    ensures { ShowsNothingElseOfKeeps }
{}

/// A machine that keeps a program, and takes a bounded number of instructions for each unit of
/// work, shows what the program shows in time.
pub fn keeps_pace_of_keeps()
    ensures { KeepsPaceOfKeeps }
{}
