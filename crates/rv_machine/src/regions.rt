ghost use Rattle.std.specs.Prelude.{◌≡◌, ℕ, ◌+◌, ◌*◌, ◌/◌, ◌^◌, ◌<◌, ◌≤◌, true, false, length, vec_len, if◌then◌else◌, IfSome, IfNone};

/// The memory that may be written: four regions of words of 64 bits.
#[derive(Drop)]
pub(crate) struct Regions {
    pub(crate) statics: Vec<u64>,
    pub(crate) heap: Vec<u64>,
    pub(crate) control: Vec<u64>,
    pub(crate) number: Vec<u64>,
    // each region ends before the next begins
    ghost statics_end: { length statics.items ≤ 0x04000000 },
    ghost heap_end: { length heap.items ≤ 0x04000000 },
    ghost control_end: { length control.items ≤ 0x02000000 },
    ghost same_stacks: { length number.items ≡ length control.items },
}

/// A region that may be written.
#[derive(Clone, Copy)]
pub(crate) enum Region {
    Statics,
    Heap,
    Control,
    Number,
}

/// Where a word stands in the memory that may be written.
#[derive(Clone, Copy)]
pub(crate) struct Slot {
    pub(crate) region: Region,
    pub(crate) index: usize,
}
