// The code of a form, and of a whole program.
ghost use Rattle.std.specs.Prelude.{◌≡◌, ◌^◌, ◌<◌, ◌++◌, true, length, All, IfOk};
ghost use Rattle.core_form.specs.Reading.{core_of, cores_list, tops_of};
ghost use Rattle.compiler.specs.Templates.{check_slots as check_of, write_slots as write_of, if_slots as if_of};
ghost use Rattle.compiler.specs.Code.{constant_slots as constant_of, operation_slots as operation_of, code_of, sequence_of, codes_of, forms_code as forms_of, program_code as program_of, is_constant, is_served, are_served, is_served_call, forms_served};
ghost use Rattle.compiler.specs.Compiled.{IsNear};

use crate::slot::Slot;
use crate::templates::{
    check_slots, end_slots, nil_slots, read_slots, skip, test_slots, word_slots, write_slots,
};
use core_form::{Core, Form, TopForm, reads_lists};
use lisp_base::{Place, Primitive, Val};
use object_model::char_word;
use std::alloc::{AllocError, Global};

/// The word of the symbol T.
const TRUTH: u32 = 0x2000_003F;

fn constant_code(alloc: Global, value: Val) -> Result<Vec<Slot>, AllocError>
    requires { is_constant value ≡ true }
    ensures { IfOk result (λ v. v.items ≡ constant_of value) }
{
    match value {
        Val::Char(letter) => Vec::from_slice(alloc, &word_slots(char_word(letter) as u32)),
        Val::Sym(symbol) => {
            if symbol.0 == 0 {
                Vec::from_slice(alloc, &nil_slots())
            } else {
                Vec::from_slice(alloc, &word_slots(TRUTH))
            }
        }
        Val::Int(_) | Val::Ref(_) => Ok(Vec::new(alloc)),
    }
}

/// The choice between two codes by a third.
fn choice_code(test: Vec<Slot>, yes: &[Slot], no: &[Slot]) -> Result<Vec<Slot>, AllocError>
    requires { length (if_of test.items yes.now no.now) < 2 ^ 18 }
    ensures { IfOk result (λ v. v.items ≡ if_of test.items yes.now no.now) }
{
    let mut code = test;
    code.extend_from_slice(&test_slots(yes.len() as u32))?;
    code.extend_from_slice(yes)?;
    code.push(skip(no.len() as u32))?;
    code.extend_from_slice(no)?;
    Ok(code)
}

/// Code, and then the test that its value is a character.
fn checked_code(place: Place, code: Vec<Slot>) -> Result<Vec<Slot>, AllocError>
    ensures { IfOk result (λ v. v.items ≡ code.items ++ check_of place) }
{
    let mut code = code;
    code.extend_from_slice(&check_slots(place))?;
    Ok(code)
}

/// Code whose value goes to the output where it is a character.
fn write_code(place: Place, code: Vec<Slot>) -> Result<Vec<Slot>, AllocError>
    ensures { IfOk result (λ v. v.items ≡ code.items ++ (check_of place ++ write_of)) }
{
    let mut code = code;
    let check = check_slots(place);
    let write = write_slots();
    code.extend_from_slice(&check)?;
    code.extend_from_slice(&write)?;
    Ok(code)
}

/// The codes of forms, one after another.
#[cycle(code)]
fn part_codes(alloc: Global, parts: &[Core]) -> Result<Vec<Slot>, AllocError>
    requires served { are_served (cores_list parts.now) ≡ true }
    requires near { length (codes_of (cores_list parts.now)) < 2 ^ 18 }
    ensures { IfOk result (λ v. v.items ≡ codes_of (cores_list parts.now)) }
{
    let mut code = Vec::new(alloc);
    for part in parts {
        let next = node_code(alloc, part)?;
        code.extend_from_slice(&next)?;
    }
    Ok(code)
}

/// The code of a form.
#[cycle(code)]
fn node_code(alloc: Global, core: &Core) -> Result<Vec<Slot>, AllocError>
    requires served { is_served (core_of core.now) ≡ true }
    requires near { length (code_of (core_of core.now)) < 2 ^ 18 }
    ensures { IfOk result (λ v. v.items ≡ code_of (core_of core.now)) }
{
    reads_lists();
    match &core.form {
        Form::Quote(value) => constant_code(alloc, *value),
        Form::If(test, yes, no) => {
            let test = node_code(alloc, test)?;
            let yes = node_code(alloc, yes)?;
            let no = node_code(alloc, no)?;
            choice_code(test, &yes, &no)
        }
        Form::Progn(parts) => {
            if parts.is_empty() {
                Vec::from_slice(alloc, &nil_slots())
            } else {
                part_codes(alloc, parts)
            }
        }
        Form::Primitive(operation, arguments) => match *operation {
            Primitive::ReadChar => Vec::from_slice(alloc, &read_slots()),
            Primitive::WriteChar => write_code(core.place, part_codes(alloc, arguments)?),
            _ => Ok(Vec::new(alloc)),
        },
        Form::The(_, form) => checked_code(core.place, node_code(alloc, form)?),
        _ => Ok(Vec::new(alloc)),
    }
}

/// The codes of top-level forms, one after another.
fn forms_code(alloc: Global, forms: &[TopForm]) -> Result<Vec<Slot>, AllocError>
    requires served { forms_served (tops_of forms.now) ≡ true }
    requires near { All IsNear (tops_of forms.now) }
    ensures { IfOk result (λ v. v.items ≡ forms_of (tops_of forms.now)) }
{
    let mut code = Vec::new(alloc);
    for form in forms {
        let next = node_code(alloc, &form.core)?;
        code.extend_from_slice(&next)?;
    }
    Ok(code)
}

/// The code of a program: NIL first, then its forms, then the end of the run with the value of the last.
///
/// # Errors
///
/// Only for want of memory.
pub fn program_code(alloc: Global, forms: &[TopForm]) -> Result<Vec<Slot>, AllocError>
    requires served { forms_served (tops_of forms.now) ≡ true }
    requires near { All IsNear (tops_of forms.now) }
    ensures { IfOk result (λ v. v.items ≡ program_of (tops_of forms.now)) }
{
    let mut code = Vec::from_slice(alloc, &nil_slots())?;
    code.extend_from_slice(&forms_code(alloc, forms)?)?;
    code.extend_from_slice(&end_slots())?;
    Ok(code)
}
