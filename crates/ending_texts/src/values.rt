//! The texts of values.
ghost use Rattle.std.specs.Prelude.{◌≡◌, IfOk};
ghost use Rattle.std.specs.String.{string_bytes};
ghost use Rattle.ending_texts.specs.Words.{words_of};
ghost use Rattle.ending_texts.specs.Values.{word_text};

use lisp_print::{Limits, print};
use object_model::MemView;
use rv_machine::machine::Machine;
use std::alloc::{AllocError, Global};

/// How much of a value is printed.
const LIMITS: Limits = Limits {
    level: 20,
    length: 1_000,
    total: 10_000,
};

/// What a tagged word prints as, in the memory of this machine, as `lisp_print` prints what `object_model` sees there: a list or
/// vector inside 20 others as `#`, 1,000 elements of each, and 10,000 objects in all. A word that is no value, or whose object
/// can't be read or isn't whole, prints as `#<BAD>`. (ANSI Common Lisp 22.1.3.)
///
/// # Errors
///
/// Only where there is no memory for the text.
#[tactic(auto, unfolding(crate::specs::Values::word_text))]
pub fn value_text(alloc: Global, machine: &Machine, word: u64) -> Result<String, AllocError>
    ensures { IfOk result (λ text. string_bytes text ≡ word_text (words_of machine.now) word) }
{
    print(alloc, &MemView::new(machine), word, LIMITS)
}
