//! The texts of errors.
ghost use Rattle.std.specs.Prelude.{◌≡◌, ◌++◌, IfOk};
ghost use Rattle.std.specs.String.{string_bytes};
ghost use Rattle.object_model.specs.Memory.{word_shape};
ghost use Rattle.ending_texts.specs.Words.{words_of};
ghost use Rattle.ending_texts.specs.Errors.{data_text, datum, fault_text, index_type, indices_below, place_text, shown_at, site_text, text_or_none};

use crate::kinds::ErrorKind;
use crate::values::value_text;
use debug_info::{Debug, Site, SitePlace};
use lisp_base::{Shape, View};
use object_model::MemView;
use rv_machine::machine::Machine;
use std::alloc::{AllocError, Global};

/// The text with this number, `none` where there is no number or no text.
fn text_or_none(debug: &Debug, number: Option<u32>) -> &str
    ensures { result.now ≡ text_or_none debug.now number }
{
    match number {
        Some(number) => debug.text(number).unwrap_or("none"),
        None => "none",
    }
}

/// The operation of a site, or the type that is expected there.
fn site_text(debug: &Debug, site: Option<Site>) -> &str
    ensures { result.now ≡ site_text debug.now site }
{
    match site {
        Some(site) => text_or_none(debug, site.text),
        None => "none",
    }
}

/// Where a site lies in the source.
fn place_text(alloc: Global, debug: &Debug, site: Option<Site>) -> Result<String, AllocError>
    ensures { IfOk result (λ text. string_bytes text ≡ place_text debug.now site) }
{
    let Some(site) = site else {
        return String::from_str(alloc, "none");
    };
    match site.place {
        SitePlace::File { offset, tail: 0 } => format!(in alloc; "{offset}"),
        SitePlace::File { offset, tail } => format!(in alloc; "{offset}+{tail}"),
        SitePlace::Prelude { text } => {
            let name = text_or_none(debug, Some(text));
            format!(in alloc; "prelude:{name}")
        }
    }
}

/// The type of the indices below a length. There are none unless it is above 0.
fn indices_below(alloc: Global, length: i128) -> Result<String, AllocError>
    ensures { IfOk result (λ text. string_bytes text ≡ indices_below length) }
{
    if 0 < length {
        let last = length - 1;
        format!(in alloc; "(INTEGER 0 {last})")
    } else {
        String::from_str(alloc, "NIL")
    }
}

/// What is seen of a word in the memory of this machine.
fn seen(machine: &Machine, word: u64) -> Shape<u64>
    ensures { result ≡ word_shape (words_of machine.now) word }
{
    MemView::new(machine).shape(word)
}

/// The type of the indices into what has a length of this shape. There are none unless it is that of an integer.
fn index_type(alloc: Global, length: Shape<u64>) -> Result<String, AllocError>
    ensures { IfOk result (λ text. string_bytes text ≡ index_type length) }
{
    match length {
        Shape::Int(length) => indices_below(alloc, length),
        Shape::Char(_)
        | Shape::Sym(..)
        | Shape::Cons(..)
        | Shape::Vector(_)
        | Shape::Str(_)
        | Shape::Fun
        | Shape::Bad => String::from_str(alloc, "NIL"),
    }
}

/// A word among the data, behind a space.
fn datum(alloc: Global, machine: &Machine, word: u64) -> Result<String, AllocError>
    ensures { IfOk result (λ text. string_bytes text ≡ datum (words_of machine.now) word) }
{
    let text = value_text(alloc, machine, word)?;
    format!(in alloc; " {text}")
}

/// Two words among the data, each behind a space.
fn two_data(alloc: Global, machine: &Machine, a: u64, b: u64) -> Result<String, AllocError>
    ensures { IfOk result (λ text. string_bytes text ≡ datum (words_of machine.now) a ++ datum (words_of machine.now) b) }
{
    let first = datum(alloc, machine, a)?;
    let second = datum(alloc, machine, b)?;
    format!(in alloc; "{first}{second}")
}

/// The data that a kind of error shows, each behind a space.
fn data_text(
    alloc: Global,
    machine: &Machine,
    site: &str,
    kind: ErrorKind,
    a: u64,
    b: u64,
) -> Result<String, AllocError>
    ensures { IfOk result (λ text. string_bytes text ≡ data_text (words_of machine.now) site.now kind a b) }
{
    match kind {
        ErrorKind::Type => {
            let value = datum(alloc, machine, a)?;
            format!(in alloc; "{value} {site}")
        }
        ErrorKind::Index => {
            let index = datum(alloc, machine, a)?;
            let expected = index_type(alloc, seen(machine, b))?;
            format!(in alloc; "{index} {expected}")
        }
        ErrorKind::Overflow | ErrorKind::ZeroDivide => {
            let operands = two_data(alloc, machine, a, b)?;
            format!(in alloc; " {site}{operands}")
        }
        ErrorKind::Unbound | ErrorKind::Undefined | ErrorKind::Control => datum(alloc, machine, a),
        ErrorKind::Arguments | ErrorKind::Simple => two_data(alloc, machine, a, b),
        ErrorKind::EndOfFile | ErrorKind::Other => Ok(String::new(alloc)),
    }
}

/// What an error prints as that was made at a site.
fn shown_at(
    alloc: Global,
    machine: &Machine,
    debug: &Debug,
    site: Option<Site>,
    kind: ErrorKind,
    a: u64,
    b: u64,
) -> Result<String, AllocError>
    ensures { IfOk result (λ text. string_bytes text ≡ shown_at (words_of machine.now) debug.now site kind a b) }
{
    let name = kind.name();
    let data = data_text(alloc, machine, site_text(debug, site), kind, a, b)?;
    let place = place_text(alloc, debug, site)?;
    format!(in alloc; "{name}{data} form={place}")
}

/// What an error prints as with which this machine ended, as `TYPE-ERROR NIL CHARACTER form=0`: the name of its kind, its data,
/// and the place of the last site whose address isn't above `pc`, that of the environment call.
///
/// `kind` is from 1 to 10, and `a` and `b` are tagged words. 1 is TYPE-ERROR, with `a` and the site's text as the expected
/// type. 2 is TYPE-ERROR too, with the index `a` and the type of the indices below the length `b`, `NIL` where `b` is no integer
/// above 0.
/// 3 is INTEGER-OVERFLOW and 4 DIVISION-BY-ZERO, with the site's text as the operation and the operands `a` and `b`. 5 is
/// UNBOUND-VARIABLE, 6 UNDEFINED-FUNCTION and 8 CONTROL-ERROR, with `a`. 7 is PROGRAM-ERROR and 10 SIMPLE-ERROR, with `a` and
/// `b`. 9 is END-OF-FILE, with no data. No machine ends with another kind, which prints as ERROR with no data. No kind shows
/// `c`, the third datum.
///
/// The place is `OFFSET` in the file, `OFFSET+TAIL` where the tail isn't 0, `prelude:NAME`, or `none` where there is no site.
/// Where a site has no text, `none` stands in its place.
///
/// # Errors
///
/// Only where there is no memory for the text.
#[tactic(auto, unfolding(crate::specs::Errors::fault_text))]
pub fn error_text(
    alloc: Global,
    machine: &Machine,
    debug: &Debug,
    kind: u32,
    a: u64,
    b: u64,
    c: u64,
    pc: u64,
) -> Result<String, AllocError>
    ensures { IfOk result (λ text. string_bytes text ≡ fault_text (words_of machine.now) debug.now kind a b c pc) }
{
    let site = debug.place_of(pc);
    shown_at(alloc, machine, debug, site, ErrorKind::of(kind), a, b)
}
