//! Offsets as instructions hold them.

ghost use Rattle.std.specs.Prelude.{◌≡◌, ◌≤◌, ◌^◌, Some, None, if◌then◌else◌};
ghost use Rattle.rv_asm.specs.Reach.{in_branch, in_jump, branch_half, jump_half, high_part, low_part};

use rv_isa::fields::Field;

/// Half of the offset of a branch, where it reaches from one place to the other.
pub(crate) fn branch_offset(from: u64, to: u64) -> Option<Field<12>>
    requires from { from ≤ 2 ^ 30 }
    requires to { to ≤ 2 ^ 30 }
    ensures { result ≡ (if in_branch from to then Some (branch_half from to) else None) }
{
    if from <= to + 4096 && to <= from + 4094 {
        Some(Field::of(((to + (1 << 13) - from) / 2 % (1 << 12)) as u32))
    } else {
        None
    }
}

/// Half of the offset of a jump, where it reaches from one place to the other.
pub(crate) fn jump_offset(from: u64, to: u64) -> Option<Field<20>>
    requires from { from ≤ 2 ^ 30 }
    requires to { to ≤ 2 ^ 30 }
    ensures { result ≡ (if in_jump from to then Some (jump_half from to) else None) }
{
    if from <= to + 1_048_576 && to <= from + 1_048_574 {
        Some(Field::of(((to + (1 << 21) - from) / 2 % (1 << 20)) as u32))
    } else {
        None
    }
}

/// The 20 high bits of an offset, for an AUIPC before an instruction that adds the low ones with their sign.
pub(crate) fn high_bits(from: u64, to: u64) -> Field<20>
    requires from { from ≤ 2 ^ 30 }
    requires to { to ≤ 2 ^ 30 }
    ensures { result ≡ high_part from to }
{
    Field::of(((to + (1 << 32) + (1 << 11) - from) / (1 << 12) % (1 << 20)) as u32)
}

/// The 12 low bits of an offset.
pub(crate) fn low_bits(from: u64, to: u64) -> Field<12>
    requires from { from ≤ 2 ^ 30 }
    requires to { to ≤ 2 ^ 30 }
    ensures { result ≡ low_part from to }
{
    Field::of(((to + (1 << 32) - from) % (1 << 12)) as u32)
}
