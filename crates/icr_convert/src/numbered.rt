// Lists of what stands under numbers.
ghost use Rattle.std.specs.Prelude.{◌≡◌, OnOk, Some};
ghost use Rattle.ir_ids.specs.Entries.{map_of, with_entry};

use std::alloc::AllocError;

/// Puts a value under a number; what stood there is gone.
pub(crate) fn put<T: Copy + Drop>(
    list: &mut Vec<Option<T>>,
    number: u32,
    value: T,
) -> Result<(), AllocError>
    ensures { OnOk result (map_of list.new.items ≡ with_entry (map_of list.old.items) number (Some value)) }
{
    let place = number as usize;
    while list.len() <= place {
        list.push(None)?;
    }
    list[place] = Some(value);
    Ok(())
}
