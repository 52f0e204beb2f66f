//! Laws of the grammar. The function does nothing: a call of it gives its law.

ghost use Rattle.lisp_reader.specs.Laws.{EachFileHasOneAnswer};

/// Each file has forms, in one way, or one refusal, and never both.
pub fn one_answer()
    ensures { EachFileHasOneAnswer }
{}
