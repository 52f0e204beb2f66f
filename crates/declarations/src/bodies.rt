//! The declarations and the forms of a body.

ghost use Rattle.std.specs.Prelude.{◌≡◌, ◌≤◌, drop, length, take};
ghost use Rattle.declarations.specs.Bodies.{body_of as body_at, is_declaration as is_declaration_at, is_string as is_string_at, parted, undocumented as undocumented_of};

use lisp_base::base_symbols::DECLARE;
use lisp_base::{Heap, Obj, Val};
use lisp_forms::cons_of;

/// A body: the declarations at its front, and the forms after them.
#[derive(Clone, Copy)]
pub struct Body<'a> {
    pub declarations: &'a [Val],
    pub forms: &'a [Val],
}

/// Whether a form is a string.
fn is_string(heap: &Heap, form: Val) -> bool
    ensures { result ≡ is_string_at heap.now form }
{
    match form {
        Val::Ref(id) => match heap.get(id) {
            Some(Obj::Str(_)) => true,
            Some(Obj::Cons { .. } | Obj::Vector(_) | Obj::Fun { .. } | Obj::Cell(_)) | None => {
                false
            }
        },
        Val::Int(_) | Val::Char(_) | Val::Sym(_) => false,
    }
}

/// Whether a form is a list that begins with `DECLARE`.
fn is_declaration(heap: &Heap, form: Val) -> bool
    ensures { result ≡ is_declaration_at heap.now form }
{
    match cons_of(heap, form) {
        Some((Val::Sym(id), _)) => id.0 == DECLARE.0,
        _ => false,
    }
}

/// A body without a string that stands first before more forms.
fn undocumented<'a>(heap: &Heap, body: &'a [Val]) -> &'a [Val]
    ensures { result.now ≡ undocumented_of heap.now body.now }
{
    match body {
        [first, _, ..] if is_string(heap, *first) => &body[1..],
        _ => body,
    }
}

/// How many declarations stand at the front.
fn declaration_count(heap: &Heap, body: &[Val]) -> usize
    ensures within { result ≤ length body.now }
    ensures declarations { take result body.now ≡ (parted heap.now body.now).declarations }
    ensures forms { drop result body.now ≡ (parted heap.now body.now).forms }
{
    for (count, form) in body.iter().enumerate() {
        if !is_declaration(heap, *form) {
            return count;
        }
    }
    body.len()
}

/// The declarations and the forms of a body (ANSI Common Lisp 3.4.11). A string that stands first
/// is dropped where more follows it. Then the forms at the front that are lists beginning with
/// `DECLARE` are the declarations.
pub fn body_of<'a>(heap: &Heap, body: &'a [Val]) -> Body<'a>
    ensures declarations { result.declarations.now ≡ (body_at heap.now body.now).declarations }
    ensures forms { result.forms.now ≡ (body_at heap.now body.now).forms }
{
    let body = undocumented(heap, body);
    let count = declaration_count(heap, body);
    Body {
        declarations: &body[..count],
        forms: &body[count..],
    }
}
