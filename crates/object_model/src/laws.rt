// Laws of words, for the proofs of the crates above.
ghost use Rattle.object_model.specs.Words.{character_word, header_of, header_word, is_character, is_fixnum, make_header, number_word, word_kind};
ghost use Rattle.object_model.specs.declared.ObjKind.{ObjKind};
ghost use Rattle.object_model.specs.declared.kinds.WordKind.TheVariants.{Character, Fixnum};
ghost use Rattle.std.specs.Prelude.{◌≡◌, IsTrue, Some, ℕ, ℤ};

/// A header tells the kind and the length of which it was made.
pub fn headers_read_back()
    ensures { (k : ObjKind) (n : ℕ) → header_of (header_word k n) ≡ Some (make_header n k) }
{}

/// The word of a fixnum is that fixnum.
pub fn fixnums_read_back()
    ensures { (z : ℤ) → IsTrue (is_fixnum z) → word_kind (number_word z) ≡ Fixnum z }
{}

/// The word of a character is that character.
pub fn characters_read_back()
    ensures { (c : ℕ) → IsTrue (is_character c) → word_kind (character_word c) ≡ Character c }
{}
