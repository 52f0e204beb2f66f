//! The commands, by their stages.
ghost use Rattle.std.specs.Prelude.{◌≡◌, ◌≤◌, false, length, true};
ghost use Rattle.image.specs.View.{view};
ghost use Rattle.pyc_cli.specs.Stages.{Runs};
ghost use Rattle.pyc_cli.specs.Told.{image_asked, told_text, told_input, TellsInput, TellsBytes, TellsExec, TellsSet, TellsSource, TellsRun};
ghost use Rattle.pyc_cli.specs.View.{close_of, limits, order};
ghost use Rattle.pyc_cli.specs.Work.{Writes, Does, outside};

use crate::command::Command;
use crate::fetching::{fetch_image, fetch_source};
use crate::making::{Compiled, compile};
use crate::moving::{Input, take_input};
use crate::outcome::{Outcome, bad_image};
use crate::running::run_image;
use image::Image;
use outside_io::{SetAnswer, Sink, Source, Store};
use std::alloc::Global;
use std::str;

/// Runs an image on an input that is to be text.
fn run_text<'a, O: Sink>(
    alloc: Global,
    command: &Command,
    image: &Image,
    input: &[u8],
    out: &mut O,
) -> Outcome<'a>
    ensures writes { Writes (told_text (limits command.now) (view image.now) input.now) (close_of result) (O.sunk out.old) (O.sunk out.new) }
    ensures later { (O.sunk out.old).faults ≤ (O.sunk out.new).faults }
{
    match str::from_utf8(input) {
        Ok(text) => run_image(alloc, command, image, text, out),
        Err(error) => Outcome::NotText(error.valid_up_to()),
    }
}

/// Takes the whole input, and runs an image on it.
fn run_input<'a, I: Source, O: Sink>(
    alloc: Global,
    command: &Command,
    image: &Image,
    input: &mut I,
    out: &mut O,
) -> Outcome<'a>
    ensures runs { Runs (TellsInput (told_input (limits command.now) (view image.now))) (close_of result) (I.fed input.old) (I.fed input.new) (O.sunk out.old) (O.sunk out.new) }
    ensures takes { (I.fed input.old).faults ≤ (I.fed input.new).faults }
    ensures puts { (O.sunk out.old).faults ≤ (O.sunk out.new).faults }
{
    match take_input(alloc, input) {
        Input::All(bytes) => run_text(alloc, command, image, &bytes, out),
        Input::TooLong => Outcome::TooLong,
        Input::Failed => Outcome::ReadFault,
        Input::Memory => Outcome::Memory,
    }
}

/// Reads an image, and runs it on the whole input.
fn run_bytes<'a, I: Source, O: Sink>(
    alloc: Global,
    command: &Command,
    bytes: &[u8],
    input: &mut I,
    out: &mut O,
) -> Outcome<'a>
    ensures runs { Runs (TellsBytes (limits command.now) bytes.now) (close_of result) (I.fed input.old) (I.fed input.new) (O.sunk out.old) (O.sunk out.new) }
    ensures takes { (I.fed input.old).faults ≤ (I.fed input.new).faults }
    ensures puts { (O.sunk out.old).faults ≤ (O.sunk out.new).faults }
{
    match image::read(alloc, bytes) {
        Ok(image) => run_input(alloc, command, &image, input, out),
        Err(fault) => bad_image(fault),
    }
}

/// Gets an image, and runs it on the whole input.
fn run_name<'a, F: Store, I: Source, O: Sink>(
    alloc: Global,
    command: &Command,
    name: &'a str,
    files: &mut F,
    input: &mut I,
    out: &mut O,
) -> Outcome<'a>
    ensures { Does true (λ names left t. TellsExec (limits command.now) name.now names left t) (close_of result) (outside (F.kept files.old) (I.fed input.old) (O.sunk out.old)) (outside (F.kept files.new) (I.fed input.new) (O.sunk out.new)) }
{
    match fetch_image(files, name) {
        Ok(bytes) => run_bytes(alloc, command, &bytes, input, out),
        Err(outcome) => outcome,
    }
}

/// Gets an image, and runs it on the whole input.
pub fn exec<'a, F: Store, I: Source, O: Sink>(
    alloc: Global,
    command: &'a Command,
    files: &mut F,
    input: &mut I,
    out: &mut O,
) -> Outcome<'a>
    ensures { Does true (λ names left t. TellsExec (limits command.now) (order command.now).first names left t) (close_of result) (outside (F.kept files.old) (I.fed input.old) (O.sunk out.old)) (outside (F.kept files.new) (I.fed input.new) (O.sunk out.new)) }
{
    run_name(alloc, command, command.first.as_str(), files, input, out)
}

/// Sets the image of a file, gets it back, and runs it on the whole input.
fn run_set<'a, F: Store, I: Source, O: Sink>(
    alloc: Global,
    command: &'a Command,
    image: &[u8],
    files: &mut F,
    input: &mut I,
    out: &mut O,
) -> Outcome<'a>
    requires { length image.now ≤ image_asked }
    ensures { Does false (λ names left t. TellsSet (order command.now) image.now names left t) (close_of result) (outside (F.kept files.old) (I.fed input.old) (O.sunk out.old)) (outside (F.kept files.new) (I.fed input.new) (O.sunk out.new)) }
{
    match files.set(command.second.as_str(), image) {
        SetAnswer::Set => run_name(alloc, command, command.second.as_str(), files, input, out),
        SetAnswer::Failed => Outcome::WriteFault,
        SetAnswer::Memory => Outcome::Memory,
    }
}

/// Compiles a source, sets its image, gets it back, and runs it on the whole input.
fn run_source<'a, F: Store, I: Source, O: Sink>(
    alloc: Global,
    command: &'a Command,
    source: &[u8],
    files: &mut F,
    input: &mut I,
    out: &mut O,
) -> Outcome<'a>
    ensures { Does false (λ names left t. TellsSource (order command.now) source.now names left t) (close_of result) (outside (F.kept files.old) (I.fed input.old) (O.sunk out.old)) (outside (F.kept files.new) (I.fed input.new) (O.sunk out.new)) }
{
    match compile(alloc, source) {
        Compiled::Image(image) => run_set(alloc, command, &image, files, input, out),
        Compiled::Refused(text) => Outcome::Refused(text),
        Compiled::Memory => Outcome::Memory,
    }
}

/// Compiles a file, sets its image, gets it back, and runs it on the whole input.
pub fn run<'a, F: Store, I: Source, O: Sink>(
    alloc: Global,
    command: &'a Command,
    files: &mut F,
    input: &mut I,
    out: &mut O,
) -> Outcome<'a>
    ensures { Does true (λ names left t. TellsRun (order command.now) names left t) (close_of result) (outside (F.kept files.old) (I.fed input.old) (O.sunk out.old)) (outside (F.kept files.new) (I.fed input.new) (O.sunk out.new)) }
{
    match fetch_source(files, command.first.as_str()) {
        Ok(source) => run_source(alloc, command, &source, files, input, out),
        Err(outcome) => outcome,
    }
}
