// What is seen of words in a memory.
ghost use Rattle.lisp_base.specs.Shown.{most_elements};
ghost use Rattle.object_model.specs.Memory.{can_read, field, function_shape, has_length, is_whole, kind_shape, letter_at, list_shape, memory_shown, nil_word, object_at, object_shape, reach, string_length, symbol_kind, symbol_shape, word_letter, word_shape};
ghost use Rattle.std.specs.Prelude.{◌≡◌, ◌+◌, ◌<◌, ◌^◌, ◌==◌, ℕ, Option, IfSome, IsTrue, codes, nat_le, slice_index};

use crate::ObjKind;
use crate::kinds::{Header, WordKind, classify, object_words, read_header};
use lisp_base::{MOST_ELEMENTS, Shape, SymKind, View};
use std::marker::Model;

/// A memory of words of eight bytes.
pub trait Words {
    /// The word at each address; none where it can't be read.
    ghost words: { Self → ℕ → Option ℕ };

    /// The word at an address; None exactly where it can't be read.
    fn word(&self, address: u64) -> Option<u64>
        ensures { result ≡ words self.now address };

    /// Whether each of so many words from an address on can be read, in the time of as many reads; a memory that knows its
    /// bounds can do better.
    fn can_read(&self, address: u64, count: u64) -> bool
        requires { count < 2 ^ 57 }
        ensures { result ≡ can_read (words self.now) address count }
    {
        for i in 0..count {
            let word = match address.checked_add(8 * i) {
                Some(at) => self.word(at),
                None => None,
            };
            if word.is_none() {
                return false;
            }
        }
        true
    }
}

/// The word at an address.
fn reach<W: Words>(words: &W, address: u64) -> Option<u64>
    ensures { result ≡ reach (W.words words.now) address }
{
    words.word(address)
}

/// The word so many bytes behind an address.
fn reach_behind<W: Words>(words: &W, address: u64, bytes: u64) -> Option<u64>
    ensures { result ≡ reach (W.words words.now) (address + bytes) }
{
    words.word(address.checked_add(bytes)?)
}

/// The word so many bytes behind an address, 0 where it can't be read.
fn field<W: Words>(words: &W, address: u64, bytes: u64) -> u64
    ensures { result ≡ field (W.words words.now) address bytes }
{
    reach_behind(words, address, bytes).unwrap_or(0)
}

/// Whether a header has a length of its kind.
fn has_length(h: Header) -> bool
    ensures { result ≡ has_length h.kind h.length }
{
    match h.kind {
        ObjKind::Vector | ObjKind::String => true,
        ObjKind::Boxed | ObjKind::Cell => h.length == 1,
        ObjKind::Function => 1 <= h.length,
        ObjKind::Symbol => h.length == 4,
    }
}

/// Whether a length isn't too great.
#[tactic(auto, unfolding(lisp_base::specs::Shown::most_elements))]
fn is_short(length: u64) -> bool
    ensures value { result ≡ nat_le length most_elements }
    ensures small { IsTrue result → length < 2 ^ 24 }
{
    length <= u64::from(MOST_ELEMENTS)
}

/// Whether the object with this header can be shown.
fn is_whole<W: Words>(words: &W, address: u64, h: Header) -> bool
    ensures value { result ≡ is_whole (W.words words.now) address h }
    ensures small { IsTrue result → h.length < 2 ^ 24 }
{
    has_length(h) && is_short(h.length) && words.can_read(address, object_words(h))
}

/// The header of the whole object at an address.
#[tactic(auto, unfolding(crate::specs::Memory::object_at))]
fn object_at<W: Words>(words: &W, address: u64) -> Option<Header>
    ensures value { result ≡ object_at (W.words words.now) address }
    ensures small { IfSome result (λ h. h.length < 2 ^ 24) }
{
    let header = read_header(reach(words, address)?)?;
    if is_whole(words, address, header) {
        Some(header)
    } else {
        None
    }
}

/// The length of the string to which a word points.
fn string_length<W: Words>(words: &W, w: u64) -> Option<u32>
    ensures { result ≡ string_length (W.words words.now) w }
{
    if w % 8 != 7 {
        return None;
    }
    let header = object_at(words, w - 7)?;
    match header.kind {
        ObjKind::String => Some(header.length as u32),
        ObjKind::Vector | ObjKind::Boxed | ObjKind::Cell | ObjKind::Function | ObjKind::Symbol =>
            None,
    }
}

/// The kind of a symbol, by the word that tells it.
fn symbol_kind(w: u64) -> Option<SymKind>
    ensures { result ≡ symbol_kind w }
{
    match w {
        0 => Some(SymKind::Plain),
        4 => Some(SymKind::Keyword),
        8 => Some(SymKind::Fresh),
        _ => None,
    }
}

/// The symbol at an address.
fn symbol_shape<W: Words>(words: &W, address: u64) -> Shape<u64>
    ensures { result ≡ symbol_shape (W.words words.now) address }
{
    let count = string_length(words, field(words, address, 24));
    let kind = symbol_kind(field(words, address, 32));
    match (count, kind) {
        (Some(count), Some(kind)) => Shape::Sym(kind, count),
        _ => Shape::Bad,
    }
}

/// What is seen of an object other than a cons and a function, by its header.
fn kind_shape<W: Words>(words: &W, address: u64, h: Header) -> Shape<u64>
    requires { h.length < 2 ^ 24 }
    ensures { result ≡ kind_shape (W.words words.now) address h.kind h.length }
{
    match h.kind {
        ObjKind::Vector => Shape::Vector(h.length as u32),
        ObjKind::String => Shape::Str(h.length as u32),
        ObjKind::Boxed => Shape::Int(i128::from(field(words, address, 8).cast_signed())),
        ObjKind::Cell | ObjKind::Function => Shape::Bad,
        ObjKind::Symbol => symbol_shape(words, address),
    }
}

/// What is seen of the object at an address, other than a cons and a function.
fn object_shape<W: Words>(words: &W, address: u64) -> Shape<u64>
    ensures { result ≡ object_shape (W.words words.now) address (object_at (W.words words.now) address) }
{
    match object_at(words, address) {
        Some(header) => kind_shape(words, address, header),
        None => Shape::Bad,
    }
}

/// What is seen of the function at an address.
fn function_shape<W: Words>(words: &W, address: u64) -> Shape<u64>
    ensures { result ≡ function_shape (object_at (W.words words.now) address) }
{
    match object_at(words, address) {
        Some(header) => match header.kind {
            ObjKind::Function => Shape::Fun,
            ObjKind::Vector | ObjKind::String | ObjKind::Boxed | ObjKind::Cell | ObjKind::Symbol =>
                Shape::Bad,
        },
        None => Shape::Bad,
    }
}

/// What is seen of the cons at an address.
fn list_shape<W: Words>(words: &W, address: u64) -> Shape<u64>
    ensures { result ≡ list_shape (W.words words.now) address }
{
    let Some(car) = reach(words, address) else {
        return Shape::Bad;
    };
    let Some(cdr) = reach_behind(words, address, 8) else {
        return Shape::Bad;
    };
    match read_header(car) {
        Some(_) => Shape::Bad,
        None => Shape::Cons(car, cdr),
    }
}

/// Whether a word is NIL.
#[tactic(auto, unfolding(crate::specs::Memory::nil_word))]
fn is_nil(w: u64) -> bool
    ensures { result ≡ (w == nil_word) }
{
    w == 0x2000_0003
}

/// What is seen of a word.
fn word_shape<W: Words>(words: &W, w: u64) -> Shape<u64>
    ensures { result ≡ word_shape (W.words words.now) w }
{
    if is_nil(w) {
        return Shape::Sym(SymKind::Plain, 3);
    }
    match classify(w) {
        WordKind::Fixnum(n) => Shape::Int(n),
        WordKind::Function(address) => function_shape(words, address),
        WordKind::List(address) => list_shape(words, address),
        WordKind::Object(address) => object_shape(words, address),
        WordKind::Character(c) => Shape::Char(c),
        WordKind::Unbound | WordKind::NoFunction | WordKind::Header | WordKind::Other => Shape::Bad,
    }
}

/// A letter of the string at an address, which can be read.
fn letter_at<W: Words>(words: &W, address: u64, i: u32) -> u32
    ensures { result ≡ letter_at (W.words words.now) address i }
{
    let index = u64::from(i);
    let word = field(words, address, 8 + index / 2 * 8);
    ((word >> (index % 2 * 32)) % (1 << 32)) as u32
}

/// A letter of NIL.
fn nil_letter(i: u32) -> u32
    ensures { result ≡ slice_index (codes "NIL") i }
{
    match i {
        0 => 78,
        1 => 73,
        2 => 76,
        _ => 0,
    }
}

/// A letter of a string or of a symbol's name, which can be read.
fn word_letter<W: Words>(words: &W, w: u64, i: u32) -> u32
    ensures { result ≡ word_letter (W.words words.now) w i }
{
    if is_nil(w) {
        return nil_letter(i);
    }
    let address = w.saturating_sub(7);
    match object_at(words, address) {
        Some(header) => match header.kind {
            ObjKind::String => letter_at(words, address, i),
            ObjKind::Symbol => letter_at(words, field(words, address, 24).saturating_sub(7), i),
            ObjKind::Vector | ObjKind::Boxed | ObjKind::Cell | ObjKind::Function => 0,
        },
        None => 0,
    }
}

/// The view of the words of a memory as values.
#[derive(Drop)]
pub struct MemView<'a, W: Words> {
    words: &'a W,
}

impl<'a, W: Words> Model for MemView<'a, W> {
    ghost Value = { W };

    ghost view = { λ v. v.words.now };
}

impl<'a, W: Words> MemView<'a, W> {
    /// The view of the words of this memory.
    pub fn new(words: &'a W) -> MemView<'a, W>
        ensures { result ≡ words.now }
    {
        MemView { words }
    }
}

impl<'a, W: Words> View for MemView<'a, W> {
    type Word = u64;

    ghost shown = { λ v. memory_shown (W.words v) };

    fn shape(&self, w: u64) -> Shape<u64> {
        word_shape(self.words, w)
    }

    fn element(&self, w: u64, i: u32) -> Option<u64> {
        match word_shape(self.words, w) {
            Shape::Vector(count) if i < count => {
                Some(field(self.words, w.saturating_sub(7), 8 + 8 * u64::from(i)))
            }
            _ => None,
        }
    }

    fn letter(&self, w: u64, i: u32) -> Option<u32> {
        match word_shape(self.words, w) {
            Shape::Str(count) | Shape::Sym(_, count) if i < count => {
                Some(word_letter(self.words, w, i))
            }
            _ => None,
        }
    }
}
