//! The texts of refusals: the kind of each, and its place.
ghost use Rattle.std.specs.Prelude.{◌≡◌, List, ℕ, string_bytes, IfOk};
ghost use Rattle.std.specs.Fmt.{decimal};
ghost use Rattle.compiler.specs.Emitted.{IsRefused as IsUncompiled};
ghost use Rattle.source_programs.specs.Programs.{IsRefusedFor};
ghost use Rattle.pyc_cli.specs.Making.{IsNoProgram, IsRefused, expand_kind_text, not_yet_text, place_text as text_of_place, read_kind_text, refusal_text};

use compiler::CompileFault;
use expansion::ExpandKind;
use lisp_base::{Place, SymTab};
use lisp_reader::ReadKind;
use source_programs::ProgramFault;
use std::alloc::{AllocError, Global};

/// The name of the kind of a refusal of what can't be read.
fn read_kind_name(kind: ReadKind) -> &'static str
    ensures { result.now ≡ read_kind_text kind }
{
    match kind {
        ReadKind::TooLong => "TooLong",
        ReadKind::NotText => "NotText",
        ReadKind::Unbalanced => "Unbalanced",
        ReadKind::BadToken => "BadToken",
        ReadKind::Unsupported => "Unsupported",
        ReadKind::TooDeep => "TooDeep",
        ReadKind::TooManySymbols => "TooManySymbols",
        ReadKind::Eof => "Eof",
    }
}

/// The name of the kind of a refusal of what can be read.
fn expand_kind_name(kind: ExpandKind) -> &'static str
    ensures { result.now ≡ expand_kind_text kind }
{
    match kind {
        ExpandKind::BadForm => "BadForm",
        ExpandKind::BadType => "BadType",
        ExpandKind::UnknownOperator => "UnknownOperator",
        ExpandKind::TooManyNodes => "TooManyNodes",
        ExpandKind::TooNested => "TooNested",
        ExpandKind::TooManyClosed => "TooManyClosed",
        ExpandKind::ProgramTooLarge => "ProgramTooLarge",
        ExpandKind::TooManySymbols => "TooManySymbols",
        ExpandKind::BadPolicy => "BadPolicy",
    }
}

/// The text of a place, whose symbol is one of these.
fn place_text(alloc: Global, place: Place, symbols: &SymTab) -> Result<String, AllocError>
    ensures { IfOk result (λ text. string_bytes text ≡ text_of_place symbols.now.symbols place) }
{
    match place {
        Place::File { offset, tail: 0 } => format!(in alloc; "{offset}"),
        Place::File { offset, tail } => format!(in alloc; "{offset}+{tail}"),
        Place::Prelude { name } => {
            let name = symbols.name(name).unwrap_or("");
            format!(in alloc; "prelude:{name}")
        }
    }
}

/// The kind and the offset of the refusal of a source that can't be read.
fn unread_text(alloc: Global, kind: ReadKind, offset: u32) -> Result<String, AllocError>
    ensures { IfOk result (λ text. string_bytes text ≡ refusal_text (read_kind_text kind) (decimal offset)) }
{
    let name = read_kind_name(kind);
    format!(in alloc; "{name} at {offset}")
}

/// The kind and the place of the refusal of a source that can be read, but is no program.
fn unexpanded_text(
    alloc: Global,
    kind: ExpandKind,
    place: Place,
    symbols: &SymTab,
) -> Result<String, AllocError>
    ensures { IfOk result (λ text. string_bytes text ≡ refusal_text (expand_kind_text kind) (text_of_place symbols.now.symbols place)) }
{
    let name = expand_kind_name(kind);
    let place = place_text(alloc, place, symbols)?;
    format!(in alloc; "{name} at {place}")
}

/// The refusal of a program with a node at this place that isn't built yet.
fn unbuilt_text(alloc: Global, place: Place, symbols: &SymTab) -> Result<String, AllocError>
    ensures { IfOk result (λ text. string_bytes text ≡ refusal_text not_yet_text (text_of_place symbols.now.symbols place)) }
{
    let place = place_text(alloc, place, symbols)?;
    format!(in alloc; "NotYet at {place}")
}

/// The refusal of a source that is no program, for this fault.
pub fn no_program_text(alloc: Global, fault: ProgramFault) -> Result<String, AllocError>
    ensures { IfOk result (λ text. (source : List ℕ) → IsRefusedFor source fault → IsNoProgram source (string_bytes text)) }
{
    match fault {
        ProgramFault::Read { kind, offset } => unread_text(alloc, kind, offset),
        ProgramFault::Expand {
            kind,
            place,
            symbols,
        } => unexpanded_text(alloc, kind, place, &symbols),
        ProgramFault::Memory => Err(AllocError),
    }
}

/// The refusal of a source that isn't compiled, for this fault.
pub fn uncompiled_text(alloc: Global, fault: CompileFault) -> Result<String, AllocError>
    ensures { IfOk result (λ text. (source : List ℕ) → IsUncompiled source fault → IsRefused source (string_bytes text)) }
{
    match fault {
        CompileFault::Read { kind, offset } => unread_text(alloc, kind, offset),
        CompileFault::Expand {
            kind,
            place,
            symbols,
        } => unexpanded_text(alloc, kind, place, &symbols),
        CompileFault::NotYet { place, program } => { unbuilt_text(alloc, place, program.symbols()) }
        CompileFault::Memory => Err(AllocError),
    }
}
