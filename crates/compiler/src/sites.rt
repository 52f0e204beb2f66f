// The rows of the instructions that signal errors.
ghost use Rattle.std.specs.Prelude.{◌≡◌, ◌+◌, ◌*◌, ◌^◌, ◌<◌, ◌≤◌, length, option_to_list, IfOk, IfSome, true};
ghost use Rattle.std.specs.List.{list_all};
ghost use Rattle.debug_info.specs.Tables.{is_site};
ghost use Rattle.compiler.specs.Parts.{slot_rows as rows_of_slot, site_rows as rows_of_code};

use crate::slot::Slot;
use debug_info::{SitePlace, SiteRow};
use lisp_base::Place;
use std::alloc::{AllocError, Global};

/// The address of the first instruction of the code.
pub const CODE_START: u64 = 65_536;

/// The row of an instruction at an address, where it signals the error of a form of the file.
fn row_of(address: u64, slot: Slot) -> Option<SiteRow>
    ensures row { option_to_list result ≡ rows_of_slot address slot.site }
    ensures rules { IfSome result (λ r. is_site 1 r ≡ true) }
{
    match slot.site {
        Some(Place::File { offset, tail }) => Some(SiteRow {
            pc: address,
            place: SitePlace::File { offset, tail },
            text: Some(0),
        }),
        _ => None,
    }
}

/// The rows of instructions that stand at the code's start.
///
/// # Errors
///
/// Only for want of memory.
pub fn site_rows(alloc: Global, code: &[Slot]) -> Result<Vec<SiteRow>, AllocError>
    requires { length code.now < 2 ^ 22 }
    ensures rows { IfOk result (λ v. v.items ≡ rows_of_code 65536 code.now) }
    ensures rules { IfOk result (λ v. list_all (is_site 1) v.items ≡ true) }
{
    let mut rows = Vec::new(alloc);
    let mut address = CODE_START;
    for slot in code {
        if let Some(row) = row_of(address, *slot) {
            rows.push(row)?;
        }
        address += 4;
    }
    Ok(rows)
}
