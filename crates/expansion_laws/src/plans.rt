//! A law of what is to be done with a form.

ghost use Rattle.expansion_laws.specs.Planned.{PlansAreDerived};

/// What is to be done with a form is one of the results that have a rule, and what the rule says
/// holds then.
pub fn plans_are_derived()
    ensures { PlansAreDerived }
{}
