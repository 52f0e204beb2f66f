//! What a declaration specifier is about.

ghost use Rattle.std.specs.Prelude.{◌≡◌};
ghost use Rattle.declarations.specs.Declarations.{subject_named as subject_of_name, subject_of as subject_at};

use lisp_base::base_symbols::{
    DYNAMIC_EXTENT, IGNORABLE, IGNORE, INLINE, NOTINLINE, OPTIMIZE, SPECIAL, TYPE,
};
use lisp_base::{SymId, Val};

/// What a declaration specifier is about.
#[derive(Clone, Copy, PartialEq, Eq, Debug)]
pub(crate) enum Subject {
    /// The type of variables, which comes next.
    Type,
    /// Special variables.
    Special,
    /// The policy.
    Policy,
    /// Nothing that has an effect.
    Nothing,
    /// The type of variables, which its first element is.
    ThatType,
}

/// What a specifier that begins with a symbol is about.
#[tactic(auto, unfolding(crate::specs::Declarations::subject_named))]
fn subject_named(name: SymId) -> Subject
    ensures { result ≡ subject_of_name name }
{
    let number = name.0;
    if number == TYPE.0 {
        Subject::Type
    } else if number == SPECIAL.0 {
        Subject::Special
    } else if number == OPTIMIZE.0 {
        Subject::Policy
    } else if number == IGNORE.0
        || number == IGNORABLE.0
        || number == INLINE.0
        || number == NOTINLINE.0
        || number == DYNAMIC_EXTENT.0
    {
        Subject::Nothing
    } else {
        Subject::ThatType
    }
}

/// What a specifier with this first element is about.
pub(crate) fn subject_of(first: Val) -> Subject
    ensures { result ≡ subject_at first }
{
    match first {
        Val::Sym(name) => subject_named(name),
        Val::Int(_) | Val::Char(_) | Val::Ref(_) => Subject::ThatType,
    }
}
