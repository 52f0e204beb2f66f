// The first node of a program that isn't built.
ghost use Rattle.std.specs.Prelude.{◌≡◌};
ghost use Rattle.lisp_base.specs.Reading.{spec_of};
ghost use Rattle.core_form.specs.Reading.{core_of, cores_list, tops_of};
ghost use Rattle.core_form.specs.Lawful.{meant};
ghost use Rattle.rv_isa.specs.Machine.{is_char};
ghost use Rattle.compiler.specs.Code.{is_constant as constant_is_built, is_nil as is_nil_value, is_nil_form as form_is_nil, are_nil_forms, is_one, is_character_type as type_is_character, is_file};
ghost use Rattle.compiler.specs.BuiltNodes.{is_built_call as call_is_built, unless_built as place_unless_built, first_in as first_of_form, first_among as first_of_parts, first_of_forms as first_of_tops, first_unbuilt as first_in_program};

use core_form::{Core, Form, Program, TopForm, reads_lists};
use lisp_base::{Place, Primitive, SymId, TypeName, TypeSpec, Val, reads_specs};

/// Whether a number is that of a character.
fn is_character(code: u32) -> bool
    ensures { result ≡ is_char code }
{
    code < 0xD800 || (0xE000 <= code && code < 0x11_0000)
}

/// Whether a constant is NIL, T or a character.
fn is_constant(value: Val) -> bool
    ensures { result ≡ constant_is_built value }
{
    match value {
        Val::Char(code) => is_character(code),
        Val::Sym(symbol) => symbol.0 < 2,
        Val::Int(_) | Val::Ref(_) => false,
    }
}

fn is_nil(value: Val) -> bool
    ensures { result ≡ is_nil_value value }
{
    matches!(value, Val::Sym(SymId(0)))
}

/// Whether a form is a quoted NIL.
fn is_nil_form(core: &Core) -> bool
    ensures { result ≡ form_is_nil (core_of core.now) }
{
    match &core.form {
        Form::Quote(value) => is_nil(*value),
        _ => false,
    }
}

/// Whether forms are three quoted NILs.
fn are_three_nils(parts: &[Core]) -> bool
    ensures { result ≡ are_nil_forms 3 (cores_list parts.now) }
{
    match parts {
        [stream, eof_error, eof_value] => {
            is_nil_form(stream) && is_nil_form(eof_error) && is_nil_form(eof_value)
        }
        _ => false,
    }
}

#[tactic(auto, using(crate::proofs::Unbuilt::one_part))]
fn is_one_part(parts: &[Core]) -> bool
    ensures { result ≡ is_one (cores_list parts.now) }
{
    parts.len() == 1
}

fn is_in_file(place: Place) -> bool
    ensures { result ≡ is_file place }
{
    matches!(place, Place::File { .. })
}

/// Whether a type is CHARACTER.
fn is_character_type(spec: &TypeSpec) -> bool
    ensures { result ≡ type_is_character (spec_of spec.now) }
{
    reads_specs();
    match spec {
        TypeSpec::Named(name) => *name == TypeName::Character,
        _ => false,
    }
}

/// Whether a call of a primitive is built.
fn is_built_call(place: Place, operation: Primitive, arguments: &[Core]) -> bool
    ensures { result ≡ call_is_built place operation (cores_list arguments.now) }
{
    match operation {
        Primitive::ReadChar => are_three_nils(arguments),
        Primitive::WriteChar => is_in_file(place) && is_one_part(arguments),
        _ => false,
    }
}

/// The place of a node that isn't built, or else what was found in it.
fn unless_built(is_built: bool, place: Place, inside: Option<Place>) -> Option<Place>
    ensures { result ≡ place_unless_built is_built place inside }
{
    if is_built { inside } else { Some(place) }
}

#[cycle(unbuilt)]
fn first_among(parts: &[Core]) -> Option<Place>
    ensures { result ≡ first_of_parts (cores_list parts.now) }
{
    for part in parts {
        if let Some(place) = first_in(part) {
            return Some(place);
        }
    }
    None
}

/// The place of the first node of a form that isn't built, each node before its parts.
#[cycle(unbuilt)]
fn first_in(core: &Core) -> Option<Place>
    ensures { result ≡ first_of_form (core_of core.now) }
{
    reads_lists();
    match &core.form {
        Form::Quote(value) => unless_built(is_constant(*value), core.place, None),
        Form::If(test, yes, no) => first_in(test).or(first_in(yes).or(first_in(no))),
        Form::Progn(parts) => first_among(parts),
        Form::Primitive(operation, arguments) => {
            let is_built = is_built_call(core.place, *operation, arguments);
            unless_built(is_built, core.place, first_among(arguments))
        }
        Form::The(spec, form) => {
            let is_built = is_in_file(core.place) && is_character_type(spec);
            unless_built(is_built, core.place, first_in(form))
        }
        _ => Some(core.place),
    }
}

fn first_of_forms(forms: &[TopForm]) -> Option<Place>
    ensures { result ≡ first_of_tops (tops_of forms.now) }
{
    for form in forms {
        if let Some(place) = first_in(&form.core) {
            return Some(place);
        }
    }
    None
}

/// The place of the first node of a program that isn't built: the forms of the prelude come before those of the file.
pub fn first_unbuilt(program: &Program) -> Option<Place>
    ensures { result ≡ first_in_program (meant program.now) }
{
    first_of_forms(program.prelude()).or(first_of_forms(program.forms()))
}
