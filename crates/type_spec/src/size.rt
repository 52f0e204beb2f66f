//! The number of nodes and items of a type specifier.

ghost use Rattle.std.specs.Prelude.{◌≡◌, ◌≤◌};
ghost use Rattle.lisp_base.specs.Reading.{spec_of};
ghost use Rattle.lisp_base.specs.Laws.{specs_list};
ghost use Rattle.lisp_base.specs.Lawful.{most_parts};
ghost use Rattle.lisp_base.specs.Spec.{spec_size as size_of, specs_size};

use lisp_base::{TypeSpec, reads_specs};

/// The number of nodes and items of several specifiers.
#[cycle(size)]
fn parts_size(parts: &[TypeSpec]) -> u32
    requires { specs_size (specs_list parts.now) ≤ 4000 }
    ensures { result ≡ specs_size (specs_list parts.now) }
{
    let mut size = 0;
    for part in parts {
        size += part_size(part);
    }
    size
}

/// The number of nodes and items of a specifier.
#[cycle(size)]
fn part_size(spec: &TypeSpec) -> u32
    requires { size_of (spec_of spec.now) ≤ 4000 }
    ensures { result ≡ size_of (spec_of spec.now) }
{
    reads_specs();
    match spec {
        TypeSpec::Named(_)
        | TypeSpec::Integer { .. }
        | TypeSpec::Signed(_)
        | TypeSpec::Unsigned(_)
        | TypeSpec::Mod(_)
        | TypeSpec::Eql(_) => 1,
        TypeSpec::Member(items) => 1 + items.len() as u32,
        TypeSpec::And(parts) | TypeSpec::Or(parts) => 1 + parts_size(parts),
        TypeSpec::Not(part) => 1 + part_size(part),
    }
}

/// The number of a specifier's tree nodes and MEMBER items.
#[tactic(auto, unfolding(lisp_base::specs::Lawful::most_parts))]
pub fn spec_size(spec: &TypeSpec) -> u32
    requires { size_of (spec_of spec.now) ≤ most_parts }
    ensures { result ≡ size_of (spec_of spec.now) }
{
    part_size(spec)
}
