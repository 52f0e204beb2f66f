// Letters of names and strings.
ghost use Rattle.lisp_base.specs.Shown.{in_order, letter_count};
ghost use Rattle.lisp_print.specs.Texts.{letter_text, letters_text, most_letters, spelled};
ghost use Rattle.std.specs.Prelude.{◌≡◌, ◌++◌, OnOk, encode_utf8};
ghost use Rattle.std.specs.String.{string_bytes};

use lisp_base::View;
use std::alloc::AllocError;

/// How letters are written.
#[derive(Clone, Copy)]
pub(crate) enum Spelling {
    /// As they are, in a name.
    Bare,
    /// With `\` before `"` and `\`, in a string.
    Quoted,
}

/// The character of a letter, and `?` for a number that is no character's code point.
pub(crate) fn letter_character(code: u32) -> char
    ensures { encode_utf8 result ≡ letter_text code }
{
    char::from_u32(code).unwrap_or('?')
}

/// Appends a letter.
fn write_letter(text: &mut String, code: u32, spelling: Spelling) -> Result<(), AllocError>
    ensures { OnOk result (string_bytes text.new ≡ string_bytes text.old ++ spelled spelling code) }
{
    if matches!(spelling, Spelling::Quoted) && (code == 34 || code == 92) {
        text.push('\\')?;
    }
    text.push(letter_character(code))
}

/// How many letters of a name or a string are written at most.
#[tactic(auto, unfolding(crate::specs::Texts::most_letters))]
fn most_letters() -> u32
    ensures { result ≡ most_letters }
{
    10_000
}

/// Appends the letters of a string or a symbol's name, up to 10,000, and `...` for those behind.
pub(crate) fn write_letters<V: View>(
    text: &mut String,
    view: &V,
    w: V::Word,
    count: u32,
    spelling: Spelling,
) -> Result<(), AllocError>
    requires { letter_count ((V.shown view.now).shape w) ≡ count }
    ensures { OnOk result (string_bytes text.new ≡ string_bytes text.old ++ letters_text spelling (in_order ((V.shown view.now).letter w) 0 count)) }
{
    let most = most_letters();
    for i in 0..count.min(most) {
        let code = view.letter(w, i).unwrap_or(0);
        write_letter(text, code, spelling)?;
    }
    if most < count {
        text.push_str("...")?;
    }
    Ok(())
}
