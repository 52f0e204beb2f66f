ghost use Rattle.std.specs.Prelude.{◌≡◌, ◌↔◌, IsSome, IfSome};
ghost use Rattle.rv_machine.specs.Limits.{AreSizes};

/// The sizes of a run: those of the heap and of each of the two stacks.
#[derive(Clone, Copy)]
pub struct Sizes {
    /// The size of the heap in bytes: from 16 to 268,435,456, a multiple of 16.
    pub heap: u64,
    /// The size of each stack in bytes: from 1,024 to 268,435,456, a multiple of 16.
    pub stack: u64,
    pub ghost limits: { AreSizes heap stack },
}

/// The greatest size of a heap or of a stack, in bytes.
const GREATEST: u64 = 268_435_456;

impl Sizes {
    /// The sizes of a heap and of each stack in bytes, None exactly where they aren't within the limits.
    pub fn new(heap: u64, stack: u64) -> Option<Sizes>
        ensures some { IfSome result (λ s. (s.heap ≡ heap) × (s.stack ≡ stack)) }
        ensures within { IsSome result ↔ AreSizes heap stack }
    {
        let within = 16 <= heap
            && heap <= GREATEST
            && heap % 16 == 0
            && 1024 <= stack
            && stack <= GREATEST
            && stack % 16 == 0;
        if within {
            Some(Sizes { heap, stack })
        } else {
            None
        }
    }
}
