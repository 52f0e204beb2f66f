//! The last line of a call, on err.
ghost use Rattle.std.specs.Prelude.{◌≡◌, MatchResult, true};
ghost use Rattle.image.specs.declared.fault.ImageKind.{ImageKind};
ghost use Rattle.pyc_cli.specs.Ending.{status_of as status_of_close, line_of as line_of_close, is_made, kind_text as kind_name};
ghost use Rattle.pyc_cli.specs.Line.{PutsLine, Finishes};
ghost use Rattle.pyc_cli.specs.Lines.{line_bytes};
ghost use Rattle.pyc_cli.specs.View.{close_of};

use crate::moving::{Wrote, put_all};
use crate::outcome::Outcome;
use crate::status::Status;
use image::ImageKind;
use outside_io::Sink;
use std::alloc::{AllocError, Global};

const USAGE: &str =
    "usage: pyc compile IN OUT | exec IMAGE | run IN OUT | expand IN | disasm IMAGE | bench N OUT\n";

/// The status of an outcome.
fn status_of(outcome: &Outcome) -> Status
    ensures { result ≡ status_of_close (close_of outcome.now) }
{
    match outcome {
        Outcome::Value(_) => Status::Done,
        Outcome::Error(_) => Status::LispError,
        Outcome::Usage => Status::Usage,
        Outcome::Refused(_) => Status::Refused,
        Outcome::Absent(_) => Status::Absent,
        Outcome::ReadFault => Status::ReadFault,
        Outcome::WriteFault => Status::WriteFault,
        Outcome::Heap => Status::Heap,
        Outcome::Stack => Status::Stack,
        Outcome::StepLimit => Status::StepLimit,
        Outcome::BadImage(_, _) => Status::BadImage,
        Outcome::Trap(_) => Status::Trap,
        Outcome::NotText(_) => Status::InputNotText,
        Outcome::TooLong => Status::InputTooLong,
        Outcome::Written => Status::Done,
        Outcome::Memory => Status::Memory,
    }
}

/// A line: one that is always the same takes no memory.
#[derive(Drop)]
pub enum Line {
    Fixed(&'static str),
    Made(String),
}

impl Line {
    fn text(&self) -> &str
        ensures { result.now ≡ line_bytes self.now }
    {
        match self {
            Line::Fixed(text) => text,
            Line::Made(text) => text.as_str(),
        }
    }
}

fn kind_text(kind: ImageKind) -> &'static str
    ensures { result.now ≡ kind_name kind }
{
    match kind {
        ImageKind::Magic => "Magic",
        ImageKind::Version => "Version",
        ImageKind::CodeLength => "CodeLength",
        ImageKind::StaticsLength => "StaticsLength",
        ImageKind::DebugLength => "DebugLength",
        ImageKind::Entry => "Entry",
        ImageKind::Short => "Short",
        ImageKind::Debug => "Debug",
        ImageKind::Trailing => "Trailing",
    }
}

/// The line of an outcome, ended by a newline; none after a text that was written, or that couldn't
/// be.
#[tactic(auto, unfolding(crate::specs::Ending::line_of))]
fn line_of(alloc: Global, outcome: &Outcome) -> Result<Line, AllocError>
    ensures { MatchResult result (λ line. line_bytes line ≡ line_of_close (close_of outcome.now)) (λ _. is_made (close_of outcome.now) ≡ true) }
{
    Ok(match outcome {
        Outcome::Value(text) => Line::Made(format!(in alloc; "value {text}\n")?),
        Outcome::Error(text) => Line::Made(format!(in alloc; "error {text}\n")?),
        Outcome::Usage => Line::Fixed(USAGE),
        Outcome::Refused(text) => Line::Made(format!(in alloc; "refused {text}\n")?),
        Outcome::Absent(name) => Line::Made(format!(in alloc; "absent {name}\n")?),
        Outcome::ReadFault => Line::Fixed("read fault\n"),
        Outcome::WriteFault => Line::Fixed(""),
        Outcome::Heap => Line::Fixed("heap\n"),
        Outcome::Stack => Line::Fixed("stack\n"),
        Outcome::StepLimit => Line::Fixed("step limit\n"),
        Outcome::BadImage(kind, offset) => {
            let kind = kind_text(*kind);
            Line::Made(format!(in alloc; "bad image {kind} at {offset}\n")?)
        }
        Outcome::Trap(pc) => Line::Made(format!(in alloc; "trap at {pc}\n")?),
        Outcome::NotText(offset) => Line::Made(format!(in alloc; "input not text at {offset}\n")?),
        Outcome::TooLong => Line::Fixed("input too long\n"),
        Outcome::Written => Line::Fixed(""),
        Outcome::Memory => Line::Fixed("memory\n"),
    })
}

/// Puts the last line of a call that ends with `ends`.
fn put_text<E: Sink>(err: &mut E, line: &str, ends: Status) -> Status
    ensures { PutsLine line.now ends result (E.sunk err.old) (E.sunk err.new) }
{
    match (put_all(err, line.as_bytes()), ends) {
        (Wrote::Failed, Status::Done) => Status::WriteFault,
        (Wrote::Memory, Status::Done) => Status::Memory,
        (_, ends) => ends,
    }
}

/// Puts the last line of a call; where there is no memory for it, the line of that.
#[tactic(auto, unfolding(crate::specs::Ending::line_of))]
pub fn put_line<E: Sink>(alloc: Global, outcome: &Outcome, err: &mut E) -> Status
    ensures { Finishes (close_of outcome.now) result (E.sunk err.old) (E.sunk err.new) }
{
    match line_of(alloc, outcome) {
        Ok(line) => put_text(err, line.text(), status_of(outcome)),
        Err(_) => put_text(err, "memory\n", Status::Memory),
    }
}
