//! The qualities that `OPTIMIZE` sets.

ghost use Rattle.std.specs.Prelude.{◌≡◌};
ghost use Rattle.std.specs.Option.{option_and_then};
ghost use Rattle.declarations.specs.Policies.{is_refused as is_refused_policy, level_of as level_at, listed_setting as listed_setting_at, only_of, quality_named as quality_of_name, quality_of as quality_at, setting_of as setting_at, with_quality as quality_set};

use crate::policy::{Policy, Quality, Setting};
use lisp_base::base_symbols::{COMPILATION_SPEED, DEBUG, SAFETY, SPACE, SPEED};
use lisp_base::{Heap, SymId, Val};
use lisp_forms::{cons_of, is_nil};

/// The number that a quality alone means, which is the greatest.
const GREATEST: u8 = 3;

/// The quality of a name.
#[tactic(auto, unfolding(crate::specs::Policies::quality_named))]
fn quality_named(name: SymId) -> Option<Quality>
    ensures { result ≡ quality_of_name name }
{
    let number = name.0;
    if number == SPEED.0 {
        Some(Quality::Speed)
    } else if number == SAFETY.0 {
        Some(Quality::Safety)
    } else if number == SPACE.0 || number == DEBUG.0 || number == COMPILATION_SPEED.0 {
        Some(Quality::Other)
    } else {
        None
    }
}

/// The quality that a form names.
fn quality_of(form: Val) -> Option<Quality>
    ensures { result ≡ quality_at form }
{
    match form {
        Val::Sym(name) => quality_named(name),
        Val::Int(_) | Val::Char(_) | Val::Ref(_) => None,
    }
}

/// The number that stands alone in a list.
fn only_level(heap: &Heap, list: Val) -> Option<u8>
    ensures { result ≡ option_and_then level_at (only_of heap.now list) }
{
    match cons_of(heap, list) {
        Some((Val::Int(level), rest)) if is_nil(rest) && 0 <= level && level <= 3 => {
            Some(level as u8)
        }
        _ => None,
    }
}

/// The setting that a list of a quality and a number writes.
fn listed_setting(heap: &Heap, form: Val) -> Option<Setting>
    ensures { result ≡ listed_setting_at heap.now form }
{
    let (name, rest) = cons_of(heap, form)?;
    let quality = quality_of(name)?;
    let level = only_level(heap, rest)?;
    Some(Setting { quality, level })
}

/// The setting that a form writes.
pub(crate) fn setting_of(heap: &Heap, form: Val) -> Option<Setting>
    ensures { result ≡ setting_at heap.now form }
{
    match quality_of(form) {
        Some(quality) => Some(Setting {
            quality,
            level: GREATEST,
        }),
        None => listed_setting(heap, form),
    }
}

/// A policy with a quality set.
pub(crate) fn with_setting(setting: Setting, policy: Policy) -> Policy
    ensures { result ≡ quality_set setting.quality setting.level policy }
{
    match setting.quality {
        Quality::Speed => Policy {
            speed: setting.level,
            ..policy
        },
        Quality::Safety => Policy {
            safety: setting.level,
            ..policy
        },
        Quality::Other => policy,
    }
}

/// Whether a policy is refused: its code would not check all that is declared.
pub(crate) fn is_refused(policy: Policy) -> bool
    ensures { result ≡ is_refused_policy policy }
{
    policy.safety == 0 || policy.speed > policy.safety
}
