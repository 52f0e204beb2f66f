// From the bytes of a source to the bytes of its image.
ghost use Rattle.std.specs.Prelude.{IfOk, IfErr};
ghost use Rattle.compiler.specs.Compiled.{IsCompiled};
ghost use Rattle.compiler.specs.Emitted.{IsRefused};

use crate::built::first_unbuilt;
use crate::emit::program_image;
use crate::fault::CompileFault;
use crate::laws::built_programs_meet;
use image::{what_is_spelled_is_read, write};
use source_programs::{ProgramFault, program_of};
use std::alloc::Global;

/// The bytes of the image of a source.
///
/// # Errors
///
/// `Read` exactly where the source can't be read; `Expand` exactly where it can be read but is no program; `NotYet` exactly
/// where it is a program with a node that isn't built, at the place of the first one; `Memory` where memory runs out.
pub fn compile(alloc: Global, source: &[u8]) -> Result<Vec<u8>, CompileFault>
    ensures compiled { IfOk result (λ v. IsCompiled source.now v.items) }
    ensures refused { IfErr result (λ e. IsRefused source.now e) }
{
    what_is_spelled_is_read();
    built_programs_meet();
    let program = match program_of(alloc, source) {
        Ok(program) => program,
        Err(ProgramFault::Read { kind, offset }) => {
            return Err(CompileFault::Read { kind, offset });
        }
        Err(
            ProgramFault::Expand {
                kind,
                place,
                symbols,
            },
        ) => {
            return Err(CompileFault::Expand {
                kind,
                place,
                symbols,
            });
        }
        Err(ProgramFault::Memory) => return Err(CompileFault::Memory),
    };
    match first_unbuilt(&program) {
        Some(place) => Err(CompileFault::NotYet { place, program }),
        None => {
            let image = program_image(alloc, program.forms())?;
            Ok(write(alloc, &image)?)
        }
    }
}
