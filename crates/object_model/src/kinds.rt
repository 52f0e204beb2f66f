// Kinds of words and of objects.
ghost use Rattle.object_model.specs.Tags.{Headed, words_of};
ghost use Rattle.object_model.specs.Words.{fixnum_word, header_of, immediate_kind, is_character, kind_of, word_kind};
ghost use Rattle.std.specs.Prelude.{◌+◌, ◌≤◌, ◌<◌, ◌/◌, ◌≡◌, ◌^◌, if◌then◌else◌, Some, None};

use crate::ObjKind;

/// The first word of an object: its kind and its length. The unit of the length is the kind's own: values of a vector,
/// characters of a string, words after the header of any other kind.
#[derive(Clone, Copy, Debug, PartialEq, Eq, Drop)]
pub struct Header {
    /// The kind of the object.
    pub kind: ObjKind,
    /// Its length.
    pub length: u64,
}

/// What a word is.
#[derive(Clone, Copy, Debug, PartialEq, Eq, Drop)]
pub enum WordKind {
    /// An integer from -2^61 to 2^61-1.
    Fixnum(i128),
    /// A pointer to the function at this address.
    Function(u64),
    /// A pointer to the list cell at this address.
    List(u64),
    /// A pointer to the object of another kind at this address.
    Object(u64),
    /// A character by its code point.
    Character(u32),
    /// The marker of a symbol without a value.
    Unbound,
    /// The marker of a symbol without a function.
    NoFunction,
    /// The first word of an object; it is no value.
    Header,
    /// None of these.
    Other,
}

/// The tagged word of the integer `n`; None exactly where it is outside -2^61 to 2^61-1.
pub fn fixnum_word(n: i128) -> Option<u64>
    ensures { result ≡ fixnum_word n }
{
    if -(1 << 61) <= n && n < 1 << 61 {
        Some((n as i64 * 4).cast_unsigned())
    } else {
        None
    }
}

/// The code point of the character in a word whose low eight bits are 2.
fn word_character(w: u64) -> Option<u32>
    ensures { result ≡ (if is_character (w / 256) then Some (w / 256) else None) }
{
    Some(u32::from(char::from_u32(u32::try_from(w / 256).ok()?)?))
}

/// What a word is whose low three bits are 010.
fn immediate_kind(w: u64) -> WordKind
    ensures { result ≡ immediate_kind w }
{
    match w {
        10 => WordKind::Unbound,
        18 => WordKind::NoFunction,
        _ if w % 256 == 2 => match word_character(w) {
            Some(c) => WordKind::Character(c),
            None => WordKind::Other,
        },
        _ => WordKind::Other,
    }
}

/// What a word is, by its low bits.
pub fn classify(w: u64) -> WordKind
    ensures { result ≡ word_kind w }
{
    if w % 4 == 0 {
        return WordKind::Fixnum(i128::from(w.cast_signed() / 4));
    }
    match w % 8 {
        1 => WordKind::Function(w - 1),
        2 => immediate_kind(w),
        3 => WordKind::List(w - 3),
        6 => WordKind::Header,
        7 => WordKind::Object(w - 7),
        _ => WordKind::Other,
    }
}

/// The kind whose headers have these low eight bits.
fn kind_of(bits: u64) -> Option<ObjKind>
    ensures { result ≡ kind_of bits }
{
    match bits {
        6 => Some(ObjKind::Vector),
        14 => Some(ObjKind::String),
        22 => Some(ObjKind::Boxed),
        30 => Some(ObjKind::Cell),
        38 => Some(ObjKind::Function),
        54 => Some(ObjKind::Symbol),
        _ => None,
    }
}

/// The header that a word is; None exactly where its low eight bits are no kind's.
pub fn read_header(w: u64) -> Option<Header>
    ensures { result ≡ header_of w }
{
    let kind = kind_of(w % 256)?;
    Some(Header {
        kind,
        length: w / 256,
    })
}

/// How many words an object with this header has in all, its header among them. The length is below 2^56.
pub fn object_words(h: Header) -> u64
    requires { h.length < 2 ^ 56 }
    ensures value { result ≡ words_of (Headed h.kind h.length) }
    ensures few { result ≤ h.length + 5 }
{
    match h.kind {
        ObjKind::Vector | ObjKind::Function => 1 + h.length,
        ObjKind::String => 1 + h.length.div_ceil(2),
        ObjKind::Boxed | ObjKind::Cell => 2,
        ObjKind::Symbol => 5,
    }
}
