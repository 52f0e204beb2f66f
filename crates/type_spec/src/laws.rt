//! A law of type specifiers. The function does nothing: a call of it gives its law.

ghost use Rattle.type_spec.specs.Writing.{WritesOne};

/// A form writes one specifier at most.
pub fn one_specifier()
    ensures { WritesOne }
{}
