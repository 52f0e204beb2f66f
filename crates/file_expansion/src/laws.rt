//! Laws of trees and bodies at the top of a file, of what is read, and of the forms of the prelude.

ghost use Rattle.file_expansion.specs.Laws.{BodiesAreSound, PreludesDefine, TextsAreThere, TreesAreLawful};

use expansion_laws::{forms_define, parts_are_there, places_are_there, there_are_data};

/// The tree of a form that is there is lawful.
pub fn trees_are_lawful()
    ensures { TreesAreLawful }
{
    expansion_laws::trees_are_lawful();
    there_are_data();
    places_are_there();
}

/// The declarations and forms of a body that is there are there.
pub fn bodies_are_sound()
    ensures { BodiesAreSound }
{
    parts_are_there();
    there_are_data();
    places_are_there();
}

/// A DEFUN of the prelude, of no reserved name, gives the definition of that function.
pub fn preludes_define()
    ensures { PreludesDefine }
{
    forms_define();
}

/// What is read is there.
pub fn texts_are_there()
    ensures { TextsAreThere }
{}
