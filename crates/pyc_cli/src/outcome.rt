//! What a command came to.
ghost use Rattle.std.specs.Prelude.{◌≡◌};
ghost use Rattle.pyc_cli.specs.Stages.{image_close};
ghost use Rattle.pyc_cli.specs.View.{close_of};

use image::{ImageFault, ImageKind};

/// What a command came to, before its last line.
#[derive(Drop)]
pub enum Outcome<'a> {
    /// A run ended with a value of this text.
    Value(String),
    /// A run ended with an error: its kind, its data and its place.
    Error(String),
    /// The words are outside the grammar.
    Usage,
    /// The source is no program: the kind of the refusal and its place.
    Refused(String),
    /// A name isn't there.
    Absent(&'a str),
    /// The store or the input failed where it was read.
    ReadFault,
    /// The store or an output failed where it was written.
    WriteFault,
    /// A run ended since the heap is full.
    Heap,
    /// A run ended since a stack is full.
    Stack,
    /// A run didn't end within its instructions.
    StepLimit,
    /// The bytes are no image: what is wrong, and at which offset.
    BadImage(ImageKind, u64),
    /// A run ended at this address, whose instruction can't be executed.
    Trap(u64),
    /// The input isn't UTF-8 from this offset on.
    NotText(usize),
    /// The input is longer than its limit.
    TooLong,
    /// The text of a command was written whole.
    Written,
    /// There was no memory.
    Memory,
}

/// What a command comes to whose image isn't read.
pub fn bad_image<'a>(fault: ImageFault) -> Outcome<'a>
    ensures { close_of result ≡ image_close fault }
{
    match fault {
        ImageFault::Bad { offset, kind } => Outcome::BadImage(kind, offset),
        ImageFault::Memory => Outcome::Memory,
    }
}
