//! What a file expands to, as a command writes it.
ghost use Rattle.std.specs.Prelude.{◌≤◌, List, ℕ, false, true};
ghost use Rattle.core_form.specs.Text.{program_text};
ghost use Rattle.outside_io.specs.Views.{Fed, Kept};
ghost use Rattle.pyc_cli.specs.Told.{TellsExpand, TellsProgram, told_written};
ghost use Rattle.pyc_cli.specs.View.{close_of, order};
ghost use Rattle.pyc_cli.specs.Work.{Does, Writes, outside};

use crate::command::Command;
use crate::fetching::fetch_source;
use crate::making::{Expanded, expand_source};
use crate::outcome::Outcome;
use crate::written::write_text;
use core_form::{Program, core_text};
use outside_io::{Sink, Store};
use std::alloc::Global;

/// Writes the text of a program.
fn write_program<'a, O: Sink>(alloc: Global, program: &Program, out: &mut O) -> Outcome<'a>
    ensures writes { (input : List ℕ) → Writes (told_written (program_text program.now) input) (close_of result) (O.sunk out.old) (O.sunk out.new) }
    ensures later { (O.sunk out.old).faults ≤ (O.sunk out.new).faults }
{
    match core_text(alloc, program) {
        Ok(text) => write_text(text.as_str(), out),
        Err(_) => Outcome::Memory,
    }
}

/// Expands a source, and writes the text of its program.
fn write_source<'a, O: Sink>(alloc: Global, source: &[u8], out: &mut O) -> Outcome<'a>
    ensures { (files : Kept) (input : Fed) → Does false (λ names left t. TellsProgram source.now left t) (close_of result) (outside files input (O.sunk out.old)) (outside files input (O.sunk out.new)) }
{
    match expand_source(alloc, source) {
        Expanded::Program(program) => write_program(alloc, &program, out),
        Expanded::Refused(text) => Outcome::Refused(text),
        Expanded::Memory => Outcome::Memory,
    }
}

/// Gets a source, and writes the text of its program. The input stays.
pub fn expand<'a, F: Store, O: Sink>(
    alloc: Global,
    command: &'a Command,
    files: &mut F,
    out: &mut O,
) -> Outcome<'a>
    ensures { (input : Fed) → Does true (λ names left t. TellsExpand (order command.now).first names left t) (close_of result) (outside (F.kept files.old) input (O.sunk out.old)) (outside (F.kept files.new) input (O.sunk out.new)) }
{
    match fetch_source(files, command.first.as_str()) {
        Ok(source) => write_source(alloc, &source, out),
        Err(outcome) => outcome,
    }
}
