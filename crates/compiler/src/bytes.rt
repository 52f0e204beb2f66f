// The bytes of a program's code.
ghost use Rattle.std.specs.Prelude.{◌≡◌, IfOk};
ghost use Rattle.compiler.specs.Parts.{code_bytes as bytes_of_code};

use crate::slot::Slot;
use rv_isa::words::encode;
use std::alloc::{AllocError, Global};

/// The words of the instructions, one after another.
///
/// # Errors
///
/// Only for want of memory.
pub fn code_bytes(alloc: Global, code: &[Slot]) -> Result<Vec<u8>, AllocError>
    ensures { IfOk result (λ v. v.items ≡ bytes_of_code code.now) }
{
    let mut bytes = Vec::new(alloc);
    for slot in code {
        bytes.extend_from_slice(&encode(slot.instr).to_le_bytes())?;
    }
    Ok(bytes)
}
