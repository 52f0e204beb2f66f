//! The listing of an image, as a command writes it.
ghost use Rattle.std.specs.Prelude.{◌≤◌, List, ℕ, true};
ghost use Rattle.image.specs.Format.{image_of};
ghost use Rattle.outside_io.specs.Views.{Fed};
ghost use Rattle.pyc_cli.specs.Told.{TellsDisasm, told_code, told_listing};
ghost use Rattle.pyc_cli.specs.View.{close_of, order};
ghost use Rattle.pyc_cli.specs.Work.{Writes, Does, outside};

use crate::command::Command;
use crate::fetching::fetch_image;
use crate::outcome::{Outcome, bad_image};
use crate::written::write_text;
use listing::text::listing;
use outside_io::{Sink, Store};
use std::alloc::Global;

/// Writes the listing of code.
fn list_code<'a, O: Sink>(alloc: Global, code: &[u8], out: &mut O) -> Outcome<'a>
    ensures writes { (input : List ℕ) → Writes (told_code code.now input) (close_of result) (O.sunk out.old) (O.sunk out.new) }
    ensures later { (O.sunk out.old).faults ≤ (O.sunk out.new).faults }
{
    match listing(alloc, code) {
        Ok(text) => write_text(text.as_str(), out),
        Err(_) => Outcome::Memory,
    }
}

/// Reads an image, and writes the listing of its code.
fn list_bytes<'a, O: Sink>(alloc: Global, bytes: &[u8], out: &mut O) -> Outcome<'a>
    ensures writes { (input : List ℕ) → Writes (told_listing (image_of bytes.now) input) (close_of result) (O.sunk out.old) (O.sunk out.new) }
    ensures later { (O.sunk out.old).faults ≤ (O.sunk out.new).faults }
{
    match image::read(alloc, bytes) {
        Ok(image) => list_code(alloc, &image.code, out),
        Err(fault) => bad_image(fault),
    }
}

/// Gets an image, and writes the listing of its code. The input stays.
pub fn disasm<'a, F: Store, O: Sink>(
    alloc: Global,
    command: &'a Command,
    files: &mut F,
    out: &mut O,
) -> Outcome<'a>
    ensures { (input : Fed) → Does true (λ names left t. TellsDisasm (order command.now).first names left t) (close_of result) (outside (F.kept files.old) input (O.sunk out.old)) (outside (F.kept files.new) input (O.sunk out.new)) }
{
    match fetch_image(files, command.first.as_str()) {
        Ok(bytes) => list_bytes(alloc, &bytes, out),
        Err(outcome) => outcome,
    }
}
