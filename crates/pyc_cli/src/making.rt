//! The expander and the compiler, as the commands use them.
ghost use Rattle.pyc_cli.specs.Stages.{Compiles, Expands};

use crate::refusal_texts::{no_program_text, uncompiled_text};
use core_form::Program;
use outside_io::Bytes;
use source_programs::program_of;
use std::alloc::Global;

/// What expanding a source came to.
#[derive(Drop)]
pub enum Expanded {
    /// The program that the source is.
    Program(Program),
    /// The source is no program: the kind of the refusal and its place.
    Refused(String),
    /// There was no memory.
    Memory,
}

/// What compiling a source came to.
#[derive(Drop)]
pub enum Compiled {
    /// The bytes of an image that does what the program of the source does.
    Image(Bytes),
    /// The source is no program, or has a node that isn't built yet: the kind of the refusal and
    /// its place.
    Refused(String),
    /// There was no memory.
    Memory,
}

/// Expands a source.
pub fn expand_source(alloc: Global, source: &[u8]) -> Expanded
    ensures { Expands source.now result }
{
    match program_of(alloc, source) {
        Ok(program) => Expanded::Program(program),
        Err(fault) => match no_program_text(alloc, fault) {
            Ok(text) => Expanded::Refused(text),
            Err(_) => Expanded::Memory,
        },
    }
}

/// Compiles a source.
pub fn compile(alloc: Global, source: &[u8]) -> Compiled
    ensures { Compiles source.now result }
{
    match compiler::compile(alloc, source) {
        Ok(image) => Compiled::Image(image),
        Err(fault) => match uncompiled_text(alloc, fault) {
            Ok(text) => Compiled::Refused(text),
            Err(_) => Compiled::Memory,
        },
    }
}
