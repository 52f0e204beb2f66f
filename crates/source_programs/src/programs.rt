//! From the bytes of a source to its program.

ghost use Rattle.std.specs.Prelude.{IfErr, IfOk};
ghost use Rattle.core_form.specs.Lawful.{meant};
ghost use Rattle.macroexpand.specs.Small.{IsSmall};
ghost use Rattle.source_programs.specs.Programs.{IsProgramOf, IsRefusedFor};

use crate::fault::ProgramFault;
use core_form::Program;
use file_expansion::texts_are_there;
use lisp_base::{Heap, SymTab};
use lisp_reader::{ReadFault, read_file};
use macroexpand::{ExpandFault, expand_file};
use std::alloc::Global;

/// The program that a source is, with the symbols that every table begins with and no object
/// before it is read. No form of it has more than 4,000 nodes, and the whole no more than 400,000.
///
/// # Errors
/// `Read` exactly where the source can't be read; `Expand` exactly where it can be read and what
/// was read is refused, with the first refusal in the order of expansion; want of memory.
pub fn program_of(alloc: Global, source: &[u8]) -> Result<Program, ProgramFault>
    ensures program { IfOk result (IsProgramOf source.now) }
    ensures refused { IfErr result (IsRefusedFor source.now) }
    ensures small { IfOk result (λ p. IsSmall (meant p)) }
{
    texts_are_there();
    let mut symbols = SymTab::new(alloc)?;
    symbols.begins_with_names();
    let mut heap = Heap::new(alloc);
    let forms = match read_file(alloc, source, &mut symbols, &mut heap) {
        Ok(forms) => forms,
        Err(ReadFault::Refused { kind, offset }) => {
            return Err(ProgramFault::Read { kind, offset });
        }
        Err(ReadFault::Memory) => return Err(ProgramFault::Memory),
    };
    match expand_file(alloc, forms, symbols, heap) {
        Ok(program) => Ok(program),
        Err(
            ExpandFault::Refused {
                kind,
                place,
                symbols,
            },
        ) => Err(ProgramFault::Expand {
            kind,
            place,
            symbols,
        }),
        Err(ExpandFault::Memory) => Err(ProgramFault::Memory),
    }
}
