//! The declarations and the forms of a body.

ghost use Rattle.std.specs.Prelude.{◌≡◌};
ghost use Rattle.declarations.specs.Declarations.{declared_of, read_declarations as declarations_read};
ghost use Rattle.expansion.specs.Bindings.{contents_of as contents_at, declared_or};
ghost use Rattle.form_expander.specs.Contained.{contents_from, fault_at};
ghost use Rattle.form_expander.specs.Outcomes.{Follows};
ghost use Rattle.form_expander.specs.Reading.{scope_of, world_of};

use crate::fault::Fault;
use crate::scope::Scope;
use crate::world::World;
use declarations::{DeclarationFault, Declared, body_of, read_declarations};
use expansion::ExpandKind;
use lisp_base::{Val, Vals};
use std::alloc::Global;

/// A body's declarations and forms.
#[derive(Drop)]
pub struct Contents {
    pub declared: Declared,
    pub forms: Vals,
}

/// The refusal of the form that is being expanded.
#[inline(never)]
pub(crate) fn refusal(kind: ExpandKind, scope: &Scope) -> Fault
    ensures { result ≡ Fault.Refused kind scope.now.place }
{
    Fault::Refused {
        kind,
        place: scope.place,
    }
}

/// Why the form that is being expanded is refused, by what is wrong with its declarations.
pub(crate) fn fault_of(fault: DeclarationFault, scope: &Scope) -> Fault
    ensures { result ≡ fault_at scope.now.place fault }
{
    match fault {
        DeclarationFault::BadForm => refusal(ExpandKind::BadForm, scope),
        DeclarationFault::BadType => refusal(ExpandKind::BadType, scope),
        DeclarationFault::BadPolicy => refusal(ExpandKind::BadPolicy, scope),
        DeclarationFault::Memory => Fault::Memory,
    }
}

/// What declarations say, by the policy of the scope.
fn declared_by(
    world: &World,
    alloc: Global,
    scope: &Scope,
    declarations: &[Val],
) -> Result<Declared, Fault>
    ensures { Follows declared_of (declared_or (scope_of scope.now) (declarations_read world.now.heap world.now.symbols scope.now.policy declarations.now) (world_of world.now)) result (world_of world.now) }
{
    let policy = scope.policy;
    match read_declarations(alloc, declarations, policy, &world.symbols, &world.heap) {
        Ok(declared) => Ok(declared),
        Err(fault) => Err(fault_of(fault, scope)),
    }
}

/// The declarations and the forms of a body (ANSI Common Lisp 3.4.11). The declarations are read by
/// the symbols and objects as they are, and go on from the policy of the scope.
///
/// # Errors
/// `BadForm`, `BadType` or `BadPolicy`, as the declarations are refused; want of memory.
pub fn contents_of(
    world: &World,
    alloc: Global,
    scope: &Scope,
    body: &[Val],
) -> Result<Contents, Fault>
    ensures { Follows contents_from (contents_at (scope_of scope.now) body.now (world_of world.now)) result (world_of world.now) }
{
    let body = body_of(&world.heap, body);
    let declared = declared_by(world, alloc, scope, body.declarations)?;
    let forms = Vec::from_slice(alloc, body.forms)?;
    Ok(Contents { declared, forms })
}
