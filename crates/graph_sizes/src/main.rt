//! Converts the forms of the source that comes in on standard input, and prints how large their
//! graphs are together.
#![tactic(auto)]

mod sizes;

use core_form::Program;
use icr_convert::convert_program;
use sizes::{Sizes, sizes_of};
use source_programs::{ProgramFault, program_of};
use std::alloc::{AllocError, Global};
use std::io;
use std::io::Read;

/// The whole standard input.
fn input(rt: HostRuntime, alloc: Global) -> io::Result<Vec<u8>> {
    let mut bytes = Vec::new(alloc);
    rt.stdin().read_to_end(&mut bytes)?;
    Ok(bytes)
}

/// The sizes of the graphs of all forms of a program together, of those of the prelude too.
fn program_sizes(alloc: Global, program: &Program) -> Result<Sizes, AllocError> {
    let graphs = convert_program(alloc, program)?;
    let mut sizes = Sizes::none();
    for graph in graphs.as_slice() {
        sizes = sizes.and(sizes_of(graph));
    }
    Ok(sizes)
}

/// The line that tells of a refusal.
fn refusal(fault: ProgramFault) -> &'static str {
    match fault {
        ProgramFault::Read { .. } => "refused: it can't be read",
        ProgramFault::Expand { .. } => "refused: it is no program",
        ProgramFault::Memory => "memory",
    }
}

fn main(rt: HostRuntime) -> io::Result<()> {
    let alloc = rt.alloc();
    let source = input(rt, alloc)?;
    match program_of(alloc, &source) {
        Ok(program) => {
            let sizes = program_sizes(alloc, &program)?;
            println!(rt; "{sizes}")
        }
        Err(fault) => {
            let line = refusal(fault);
            println!(rt; "{line}")
        }
    }
}
