//! A law of the forms of the prelude.

ghost use Rattle.expansion_laws.specs.Definitions.{FormsDefine};

/// A DEFUN in the scope of a function of the prelude gives the definition of that function.
pub fn forms_define()
    ensures defined { FormsDefine }
{}
