//! The words of tagged values and of object headers, as they stand in registers and memory, and what is seen of them.
//!
//! A word is told by its low bits: 00 a small integer times four, 001, 011 and 111 a pointer to a function, a list cell
//! or another object, 010 a character or a marker, 110 the header of an object in memory.
#![tactic(auto)]

ghost use Rattle.object_model.specs.Words.{character_word, header_word, kind_number};
ghost use Rattle.std.specs.Prelude.{◌<◌, ◌≡◌, ◌^◌};

mod kinds;
mod laws;
mod memory;

pub use kinds::{Header, WordKind, classify, fixnum_word, object_words, read_header};
pub use laws::{characters_read_back, fixnums_read_back, headers_read_back};
pub use memory::{MemView, Words};

/// The kinds of objects that begin with a header. An object in memory without a header is a list cell of two words.
#[derive(Clone, Copy, Debug, PartialEq, Eq, Drop)]
pub enum ObjKind {
    /// A vector of values.
    Vector,
    /// A string: code points of 32 bits, two to a word.
    String,
    /// An integer of 64 bits that is too large for a tagged word.
    Boxed,
    /// A box of one value.
    Cell,
    /// A function: its code address, then the values that it closes over.
    Function,
    /// A symbol: value, function, name and kind.
    Symbol,
}

/// The tagged word of the character with code point `c`.
pub fn char_word(c: u32) -> u64
    ensures { result ≡ character_word c }
{
    u64::from(c) * 256 + 2
}

/// The low eight bits of the header of an object of this kind.
fn kind_bits(kind: ObjKind) -> u64
    ensures value { result ≡ kind_number kind }
    ensures small { result < 256 }
{
    match kind {
        ObjKind::Vector => 6,
        ObjKind::String => 14,
        ObjKind::Boxed => 22,
        ObjKind::Cell => 30,
        ObjKind::Function => 38,
        ObjKind::Symbol => 54,
    }
}

/// The header of an object of this kind and length, which is below 2^56. The unit of the length is the kind's own: values of a vector,
/// characters of a string, words after the header of any other kind.
pub fn header(kind: ObjKind, length: u64) -> u64
    requires { length < 2 ^ 56 }
    ensures { result ≡ header_word kind length }
{
    length * 256 + kind_bits(kind)
}

#[cfg(test)]
mod tests;
