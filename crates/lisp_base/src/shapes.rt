// What is seen of a value, without what it stands in: a store, or the memory of a machine.
ghost use Rattle.lisp_base.specs.Shown.{Shown, below, item_count, letter_count};
ghost use Rattle.std.specs.Prelude.{◌≡◌};

use crate::values::SymKind;

/// How many elements a vector, a string and a symbol's name can have to be shown.
pub const MOST_ELEMENTS: u32 = 16_777_215;

/// What a value is, with the values right below it.
#[derive(Clone, Copy, PartialEq, Eq, Debug)]
pub enum Shape<W> {
    /// An integer.
    Int(i128),
    /// A character by its code point.
    Char(u32),
    /// A symbol of this kind, whose name has this many characters.
    Sym(SymKind, u32),
    /// A cons of its CAR and its CDR.
    Cons(W, W),
    /// A vector of this many elements.
    Vector(u32),
    /// A string of this many characters.
    Str(u32),
    /// A function.
    Fun,
    /// What can't be shown.
    Bad,
}

/// A way to look at values, each of which is told by a word.
pub trait View {
    /// What tells a value.
    type Word: Copy;

    /// The shape of each word, the elements of vectors and the letters of strings and names.
    ghost shown: { Self → Shown Self.Word };

    /// What the value of `w` is.
    fn shape(&self, w: Self::Word) -> Shape<Self::Word>
        ensures { result ≡ (shown self.now).shape w };

    /// The element of a vector at an index, counted from 0.
    ///
    /// None exactly where `w` is no vector or `i` isn't below its length.
    fn element(&self, w: Self::Word, i: u32) -> Option<Self::Word>
        ensures { result ≡ below (item_count ((shown self.now).shape w)) i ((shown self.now).element w i) };

    /// The code point at an index, counted from 0, of a string or of a symbol's name.
    ///
    /// None exactly where `w` is neither or `i` isn't below the number of its characters. The number needn't be that of a
    /// character.
    fn letter(&self, w: Self::Word, i: u32) -> Option<u32>
        ensures { result ≡ below (letter_count ((shown self.now).shape w)) i ((shown self.now).letter w i) };
}
