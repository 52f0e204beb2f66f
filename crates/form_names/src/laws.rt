// Laws of the functions of a form. Each function does nothing: a call of it gives its law.
ghost use Rattle.form_names.specs.Laws.{NumberedFunctions, LocalFunctionsStand};

/// A function of a form whose functions are numbered as they stand is found by its number, and each
/// local function is among the functions of its form.
pub fn numbered_functions()
    ensures numbered { NumberedFunctions }
    ensures local { LocalFunctionsStand }
{}
