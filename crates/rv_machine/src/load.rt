//! The first state of a machine.
ghost use Rattle.std.specs.Prelude.{IfOk};
ghost use Rattle.rv_isa.specs.Start.{IsSetup};
ghost use Rattle.rv_machine.specs.Limits.{setup};
ghost use Rattle.rv_machine.specs.Loads.{IsLoaded};

use crate::machine::Machine;
use crate::regions::Regions;
use crate::registers::Registers;
use crate::sizes::Sizes;
use crate::words::{words32, words64};
use image::Image;
use std::alloc::{AllocError, Global};

impl Machine {
    /// The machine in its first state, with the code, the statics and the entry of an image, and these sizes of heap and
    /// stacks. It takes all memory of the run, and the error is want of it.
    pub fn load(alloc: Global, image: &Image, sizes: Sizes) -> Result<Machine, AllocError>
        ensures { IfOk result (λ m. IsLoaded (setup image.now.code.items image.now.statics.items image.now.entry sizes.heap sizes.stack) m) }
    {
        Machine::load_parts(alloc, &image.code, &image.statics, image.entry, sizes)
    }

    /// The machine in its first state, with the code and the statics in these bytes, that begins at this entry.
    /// It takes all memory of the run.
    pub(crate) fn load_parts(
        alloc: Global,
        code: &[u8],
        statics: &[u8],
        entry: u64,
        sizes: Sizes,
    ) -> Result<Machine, AllocError>
        requires { IsSetup (setup code.now statics.now entry sizes.heap sizes.stack) }
        ensures { IfOk result (λ m. IsLoaded (setup code.now statics.now entry sizes.heap sizes.stack) m) }
    {
        let code = words32(alloc, code)?;
        let statics = words64(alloc, statics)?;
        let memory = Regions::first(alloc, statics, sizes.heap, sizes.stack)?;
        Ok(Machine {
            registers: Registers::first(sizes.heap, sizes.stack),
            pc: entry,
            code,
            memory,
            taken: 0,
            ending: None,
        })
    }
}
