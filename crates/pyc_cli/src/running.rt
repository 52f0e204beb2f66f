//! The machine, as the commands use it.
ghost use Rattle.std.specs.Prelude.{◌≡◌, ◌≤◌, IfOk, encode_utf8};
ghost use Rattle.std.specs.Char.{InScalarRange};
ghost use Rattle.std.specs.Str.{chars};
ghost use Rattle.image.specs.View.{view};
ghost use Rattle.rv_machine.specs.Loads.{IsLoaded};
ghost use Rattle.pyc_cli.specs.Moved.{PutsAll};
ghost use Rattle.pyc_cli.specs.Running.{setup};
ghost use Rattle.pyc_cli.specs.Stages.{IsToldBy, event_told};
ghost use Rattle.pyc_cli.specs.Told.{told_run};
ghost use Rattle.pyc_cli.specs.View.{close_of, limits};
ghost use Rattle.pyc_cli.specs.Work.{Writes};

use crate::command::Command;
use crate::moving::{Wrote, put_all};
use crate::outcome::Outcome;
use ending_texts::{error_text, value_text};
use image::Image;
use outside_io::Sink;
use rv_machine::events::Event;
use rv_machine::machine::Machine;
use rv_machine::sizes::Sizes;
use std::alloc::{AllocError, Global};

/// The characters of a text.
fn characters(alloc: Global, text: &str) -> Result<Vec<char>, AllocError>
    ensures { IfOk result (λ v. v.items ≡ chars text.now) }
{
    text.chars().collect(alloc)
}

/// Puts a character in UTF-8.
fn put_char<O: Sink>(out: &mut O, code: u32) -> Wrote
    requires { InScalarRange code }
    ensures { PutsAll (O.sunk out.old) (O.sunk out.new) result (encode_utf8 code) }
{
    let mut buffer = [0u8; 4];
    match char::from_u32(code) {
        Some(character) => put_all(out, character.encode_utf8(&mut buffer).as_bytes()),
        None => unreachable!(),
    }
}

/// What a run came to that stopped with this event.
fn outcome_of<'a>(alloc: Global, image: &Image, machine: &Machine, event: Event) -> Outcome<'a>
    ensures { IsToldBy (close_of result) (event_told (view image.now) machine.now event) }
{
    match event {
        Event::Value(word) => match value_text(alloc, machine, word) {
            Ok(text) => Outcome::Value(text),
            Err(_) => Outcome::Memory,
        },
        Event::Error { kind, a, b, c, pc } => {
            match error_text(alloc, machine, &image.debug, kind, a, b, c, pc) {
                Ok(text) => Outcome::Error(text),
                Err(_) => Outcome::Memory,
            }
        }
        Event::Heap => Outcome::Heap,
        Event::Stack => Outcome::Stack,
        Event::Trap { pc } => Outcome::Trap(pc),
        Event::Went | Event::Wrote(_) => Outcome::StepLimit,
    }
}

/// Runs a machine that was loaded with an image.
fn run_machine<'a, O: Sink>(
    alloc: Global,
    command: &Command,
    image: &Image,
    machine: &mut Machine,
    input: &[char],
    out: &mut O,
) -> Outcome<'a>
    requires { IsLoaded (setup (limits command.now) (view image.now)) machine.old }
    ensures writes { Writes (told_run (limits command.now) (view image.now) input.now) (close_of result) (O.sunk out.old) (O.sunk out.new) }
    ensures later { (O.sunk out.old).faults ≤ (O.sunk out.new).faults }
{
    let mut left = command.steps;
    loop {
        let stop = machine.run(left, input);
        left -= stop.steps;
        match stop.event {
            Event::Wrote(code) => match put_char(out, code) {
                Wrote::All => {}
                Wrote::Failed => return Outcome::WriteFault,
                Wrote::Memory => return Outcome::Memory,
            },
            event => return outcome_of(alloc, image, machine, event),
        }
    }
}

/// Runs an image on the characters of a text, with the sizes and the number of instructions of the
/// command. Each character that it writes goes to `out` at once, in UTF-8.
pub fn run_image<'a, O: Sink>(
    alloc: Global,
    command: &Command,
    image: &Image,
    text: &str,
    out: &mut O,
) -> Outcome<'a>
    ensures writes { Writes (told_run (limits command.now) (view image.now) (chars text.now)) (close_of result) (O.sunk out.old) (O.sunk out.new) }
    ensures later { (O.sunk out.old).faults ≤ (O.sunk out.new).faults }
{
    let Ok(input) = characters(alloc, text) else {
        return Outcome::Memory;
    };
    let sizes = Sizes {
        heap: command.heap,
        stack: command.stack,
    };
    match Machine::load(alloc, image, sizes) {
        Ok(mut machine) => run_machine(alloc, command, image, &mut machine, &input, out),
        Err(_) => Outcome::Memory,
    }
}
