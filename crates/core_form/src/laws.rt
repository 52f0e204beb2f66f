// Laws of the meaning of programs. Each function does nothing: a call of it gives its law.

ghost use Rattle.core_form.specs.Laws.{ReadsProgn, ReadsPrimitive, MoreFuelKeeps, OutputStays, CountersStay, NeverAstray, TakesWithin, UnfinishedTookAll, EnoughWasTaken, TakenStays, ProgramsAreByFuel, ProgramsAreNeverFull, ProgramsNeverGoAstray, ProgramIsItsForms, FormsAreByFuel, FormsAreNeverFull};

/// A sequence and a call of a primitive are read by the lists that they hold.
pub fn reads_lists()
    ensures sequence { ReadsProgn }
    ensures call { ReadsPrimitive }
{}

/// A run that ended with some fuel is the same with more; what a run without an end has shown
/// stays, output and counters.
pub fn more_fuel_keeps()
    ensures ending { MoreFuelKeeps }
    ensures output { OutputStays }
    ensures counters { CountersStay }
{}

/// No run ends with an exit that goes nowhere.
pub fn never_astray()
    ensures { NeverAstray }
{}

/// A run takes no more fuel than it is given, and all of it before it stops for want of fuel. With
/// just what it took it is the same run, and with more fuel it takes no less.
pub fn fuel_taken()
    ensures within { TakesWithin }
    ensures all { UnfinishedTookAll }
    ensures enough { EnoughWasTaken }
    ensures stays { TakenStays }
{}

/// A program is a lawful layer by fuel. It is never full, and never comes to an end without a
/// meaning.
pub fn programs_are_layers()
    ensures fuel { ProgramsAreByFuel }
    ensures full { ProgramsAreNeverFull }
    ensures astray { ProgramsNeverGoAstray }
{}

/// The layer of a program is that of its forms together, the prelude's first. Any forms together
/// are a lawful layer by fuel, and never full.
pub fn forms_are_layers()
    ensures program { ProgramIsItsForms }
    ensures fuel { FormsAreByFuel }
    ensures full { FormsAreNeverFull }
{}
