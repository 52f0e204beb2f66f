//! Laws of templates and lists. The functions do nothing: a call of one gives its laws.

ghost use Rattle.lisp_forms.specs.Laws.{ElementsAreThose, ListsAreFound, ReadsList};

/// A template that is a list is read by the elements that it holds.
pub fn reads_templates()
    ensures { ReadsList }
{}

/// What `elements` finds are the elements of a proper list, and it finds those of every proper
/// list: so it finds none exactly where a list is improper or circular.
pub fn elements_are_those()
    ensures those { ElementsAreThose }
    ensures found { ListsAreFound }
{}
