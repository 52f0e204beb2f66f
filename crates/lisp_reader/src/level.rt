//! What is begun and not ended yet.

ghost use Rattle.std.specs.Prelude.{◌≡◌};
ghost use Rattle.lisp_reader.specs.Machine.{shape_of};
ghost use Rattle.lisp_reader.specs.Held.{level_of};

use crate::token::Prefix;
use lisp_base::{Val, Vals};

// A list, vector or prefix that is begun, by the offset of its first byte, and the elements so far.
#[derive(Drop)]
pub(crate) enum Level {
    List { at: u32, items: Vals },
    // A list and its dot.
    Dot { at: u32, items: Vals },
    // A list, its dot and the form after it.
    Tail { at: u32, items: Vals, tail: Val },
    Vector { at: u32, items: Vals },
    Prefix { at: u32, prefix: Prefix },
}

// What matters of a level to what may come next.
#[derive(Clone, Copy)]
pub(crate) enum Shape {
    // A list, and whether it has elements.
    List(bool),
    Dot,
    Tail,
    Vector,
    Prefix(Prefix),
}

pub(crate) fn shape_of(level: &Level) -> Shape
    ensures { result ≡ shape_of (level_of level.now) }
{
    match level {
        Level::List { items, .. } => Shape::List(!items.is_empty()),
        Level::Dot { .. } => Shape::Dot,
        Level::Tail { .. } => Shape::Tail,
        Level::Vector { .. } => Shape::Vector,
        Level::Prefix { prefix, .. } => Shape::Prefix(*prefix),
    }
}
