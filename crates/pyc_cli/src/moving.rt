//! Bytes moved by several calls.
ghost use Rattle.std.specs.Prelude.{◌<◌, ◌≤◌};
ghost use Rattle.pyc_cli.specs.Stages.{TakesMore};
ghost use Rattle.pyc_cli.specs.Moved.{PutsAll, TakesInput};

use outside_io::{Bytes, Put, Sink, Source, Took};
use std::alloc::Global;

/// The longest input, in bytes.
const INPUT_LIMIT: usize = 16_777_216;

/// What putting a whole piece came to.
#[derive(Clone, Copy, PartialEq, Eq, Debug, Drop)]
pub enum Wrote {
    /// All of it was put.
    All,
    /// A put failed.
    Failed,
    /// A put had no memory.
    Memory,
}

/// Puts `piece`, from its front on, up to the first put that doesn't take a byte.
pub fn put_all<S: Sink>(sink: &mut S, piece: &[u8]) -> Wrote
    ensures { PutsAll (S.sunk sink.old) (S.sunk sink.new) result piece.now }
{
    let mut rest = piece;
    while !rest.is_empty() {
        match sink.put(rest) {
            Put::Bytes(count) => rest = rest.split_at(count).1,
            Put::Failed => return Wrote::Failed,
            Put::Memory => return Wrote::Memory,
        }
    }
    Wrote::All
}

/// What taking a whole input came to.
#[derive(Drop)]
pub enum Input {
    /// Its bytes.
    All(Bytes),
    /// It is longer than its limit, by which one byte more is gone.
    TooLong,
    /// A take failed.
    Failed,
    /// There was no memory.
    Memory,
}

/// What taking some more of an input came to.
#[derive(Clone, Copy, PartialEq, Eq, Debug, Drop)]
enum Step {
    /// At least one byte more was taken.
    More,
    /// Nothing is left.
    End,
    /// The take failed.
    Failed,
    /// There was no memory.
    Memory,
}

/// Takes some more of the input, at most `most` bytes.
fn take_more<I: Source>(input: &mut I, bytes: &mut Bytes, most: usize) -> Step
    requires { 0 < most }
    ensures takes { TakesMore (I.fed input.old) (I.fed input.new) result bytes.old.items bytes.new.items most }
    ensures later { (I.fed input.old).faults ≤ (I.fed input.new).faults }
{
    let mut buffer = [0u8; 4096];
    let (piece, _) = buffer.split_at_mut(most.min(4096));
    match input.take(piece) {
        Took::Bytes(count) => match bytes.extend_from_slice(piece.split_at(count).0) {
            Ok(()) => Step::More,
            Err(_) => Step::Memory,
        },
        Took::End => Step::End,
        Took::Failed => Step::Failed,
    }
}

/// Takes the whole input, or one byte more than its limit of 16,777,216 bytes.
pub fn take_input<I: Source>(alloc: Global, input: &mut I) -> Input
    ensures takes { TakesInput (I.fed input.old) (I.fed input.new) result }
    ensures later { (I.fed input.old).faults ≤ (I.fed input.new).faults }
{
    let mut bytes = Vec::new(alloc);
    while bytes.len() <= INPUT_LIMIT {
        let room = INPUT_LIMIT + 1 - bytes.len();
        match take_more(input, &mut bytes, room) {
            Step::More => {}
            Step::End => return Input::All(bytes),
            Step::Failed => return Input::Failed,
            Step::Memory => return Input::Memory,
        }
    }
    Input::TooLong
}
