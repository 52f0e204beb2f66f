// The texts of values without parts.
ghost use Rattle.lisp_base.specs.Shown.{in_order, letter_count};
ghost use Rattle.lisp_print.specs.Progress.{atom_text, ends_list};
ghost use Rattle.lisp_print.specs.Texts.{character_name, character_text, is_nil, mark_of, name_text, named_text, string_text};
ghost use Rattle.std.specs.Fmt.{signed_decimal};
ghost use Rattle.std.specs.Option.{option_map};
ghost use Rattle.std.specs.Prelude.{◌≡◌, ◌<◌, ◌++◌, ◌==◌, OnOk};
ghost use Rattle.std.specs.String.{string_bytes};

use crate::letters::{Spelling, write_letters};
use itoa::Buffer;
use lisp_base::{Shape, SymKind, View};
use std::alloc::AllocError;

/// The name of a character that has one.
fn character_name(character: char) -> Option<&'static str>
    ensures { option_map (λ name. name.now) result ≡ character_name character }
{
    match character {
        ' ' => Some("Space"),
        '\n' => Some("Newline"),
        '\t' => Some("Tab"),
        '\x0c' => Some("Page"),
        '\r' => Some("Return"),
        '\x08' => Some("Backspace"),
        '\x7f' => Some("Rubout"),
        '\0' => Some("Null"),
        _ => None,
    }
}

/// Appends an integer in decimal.
fn write_integer(text: &mut String, n: i128) -> Result<(), AllocError>
    ensures { OnOk result (string_bytes text.new ≡ string_bytes text.old ++ signed_decimal n) }
{
    let mut buffer = Buffer::new();
    text.push_str(buffer.format(n))
}

/// Appends the name of a character, or itself where it has none.
fn write_named(text: &mut String, character: char) -> Result<(), AllocError>
    ensures { OnOk result (string_bytes text.new ≡ string_bytes text.old ++ named_text character) }
{
    match character_name(character) {
        Some(name) => text.push_str(name),
        None => text.push(character),
    }
}

/// Appends `#\` and a character's name, itself where it has none, or `?` where the number is no character's code point.
fn write_character(text: &mut String, code: u32) -> Result<(), AllocError>
    ensures { OnOk result (string_bytes text.new ≡ string_bytes text.old ++ character_text code) }
{
    text.push_str("#\\")?;
    match char::from_u32(code) {
        Some(character) => write_named(text, character),
        None => text.push('?'),
    }
}

/// What stands before a symbol's name.
fn mark(kind: SymKind) -> &'static str
    ensures { result.now ≡ mark_of kind }
{
    match kind {
        SymKind::Plain => "",
        SymKind::Keyword => ":",
        SymKind::Fresh => "#:",
    }
}

/// Appends a symbol's mark and name.
fn write_name<V: View>(
    text: &mut String,
    view: &V,
    w: V::Word,
    kind: SymKind,
    count: u32,
) -> Result<(), AllocError>
    requires { letter_count ((V.shown view.now).shape w) ≡ count }
    ensures { OnOk result (string_bytes text.new ≡ string_bytes text.old ++ name_text (in_order ((V.shown view.now).letter w) 0 count) kind) }
{
    text.push_str(mark(kind))?;
    write_letters(text, view, w, count, Spelling::Bare)
}

/// Appends a string between quotes.
fn write_string<V: View>(
    text: &mut String,
    view: &V,
    w: V::Word,
    count: u32,
) -> Result<(), AllocError>
    requires { letter_count ((V.shown view.now).shape w) ≡ count }
    ensures { OnOk result (string_bytes text.new ≡ string_bytes text.old ++ string_text (in_order ((V.shown view.now).letter w) 0 count)) }
{
    text.push('"')?;
    write_letters(text, view, w, count, Spelling::Quoted)?;
    text.push('"')
}

/// Appends a value without parts, and nothing for a cons or a vector.
pub(crate) fn write_atom<V: View>(
    text: &mut String,
    view: &V,
    w: V::Word,
    shape: Shape<V::Word>,
) -> Result<(), AllocError>
    requires { shape ≡ (V.shown view.now).shape w }
    ensures { OnOk result (string_bytes text.new ≡ string_bytes text.old ++ atom_text (V.shown view.now) w shape) }
{
    match shape {
        Shape::Int(n) => write_integer(text, n),
        Shape::Char(code) => write_character(text, code),
        Shape::Sym(kind, count) => write_name(text, view, w, kind, count),
        Shape::Str(count) => write_string(text, view, w, count),
        Shape::Fun => text.push_str("#<FUNCTION>"),
        Shape::Bad => text.push_str("#<BAD>"),
        Shape::Cons(_, _) | Shape::Vector(_) => Ok(()),
    }
}

/// Whether a letter is this one.
fn is_letter<V: View>(view: &V, w: V::Word, i: u32, code: u32) -> bool
    requires { i < letter_count ((V.shown view.now).shape w) }
    ensures { result ≡ ((V.shown view.now).letter w i == code) }
{
    view.letter(w, i).unwrap_or(0) == code
}

/// Whether a symbol is NIL.
fn is_nil<V: View>(view: &V, w: V::Word, kind: SymKind, count: u32) -> bool
    requires { letter_count ((V.shown view.now).shape w) ≡ count }
    ensures { result ≡ is_nil (in_order ((V.shown view.now).letter w) 0 count) kind }
{
    match kind {
        SymKind::Plain => {
            count == 3
                && is_letter(view, w, 0, 78)
                && is_letter(view, w, 1, 73)
                && is_letter(view, w, 2, 76)
        }
        SymKind::Keyword | SymKind::Fresh => false,
    }
}

/// Whether a value is NIL, the end of lists.
pub(crate) fn ends_list<V: View>(view: &V, w: V::Word, shape: Shape<V::Word>) -> bool
    requires { shape ≡ (V.shown view.now).shape w }
    ensures { result ≡ ends_list (V.shown view.now) w shape }
{
    match shape {
        Shape::Sym(kind, count) => is_nil(view, w, kind, count),
        Shape::Int(_)
        | Shape::Char(_)
        | Shape::Cons(_, _)
        | Shape::Vector(_)
        | Shape::Str(_)
        | Shape::Fun
        | Shape::Bad => false,
    }
}
