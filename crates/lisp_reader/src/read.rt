//! Reading a file.

ghost use Rattle.std.specs.Prelude.{◌≡◌, ◌+◌, ◌<◌, ◌≤◌, ◌^◌, List, [], Err, IfErr, IfOk, IfSome, None, Ok, OnOk, Some, length};
ghost use Rattle.std.specs.Str.{chars};
ghost use Rattle.lisp_reader.specs.Answers.{IsRefusedAt, Reads, text_tokens};
ghost use Rattle.lisp_reader.specs.Building.{stock};
ghost use Rattle.lisp_reader.specs.Held.{AllShort, KeepsAll, fault_of, levels_of};
ghost use Rattle.lisp_reader.specs.Machine.{ended, run, world};
ghost use Rattle.lisp_reader.specs.Seen.{world_of};
ghost use Rattle.lisp_reader.specs.Spelled.{token_or_none};
ghost use Rattle.lisp_reader.specs.Tokens.{Placed, placed_before, tokens, utf8_length};

use crate::fault::{ReadFault, ReadKind};
use crate::forms::Forms;
use crate::pieces::first_piece;
use crate::progress::Progress;
use crate::token::Token;
use crate::words::{utf8_length, without};
use lisp_base::{Heap, SymTab};
use std::alloc::{AllocError, Global};

// The greatest length of a file in bytes.
const GREATEST_LENGTH: usize = 1_048_576;

// Reads what comes first in a text.
#[tactic(auto, using(crate::proofs::Chains::all_same, crate::proofs::Steps::run_goes, crate::proofs::Steps::run_stops, crate::proofs::Shorts::step_short, crate::proofs::Shorts::higher))]
fn read_piece(
    progress: &mut Progress,
    symbols: &mut SymTab,
    heap: &mut Heap,
    at: u32,
    end: u32,
    token: Option<Token<'_>>,
) -> Result<(), ReadFault>
    requires small { at < 2 ^ 32 }
    requires short { AllShort at (levels_of progress.old.levels) }
    ensures ok { OnOk result ((ps : List Placed) → run (world_of progress.old symbols.old heap.old) end (placed_before at (token_or_none token.entry) ps) ≡ run (world_of progress.new symbols.new heap.new) end ps) }
    ensures short { OnOk result (AllShort (at + 1) (levels_of progress.new.levels)) }
    ensures refused { IfErr result (λ fault. IfSome (fault_of fault) (λ r. (ps : List Placed) → run (world_of progress.old symbols.old heap.old) end (placed_before at (token_or_none token.entry) ps) ≡ Err r)) }
    ensures kept { KeepsAll symbols.old heap.old symbols.new heap.new }
{
    match token {
        None => Ok(()),
        Some(token) => progress.step(symbols, heap, at, end, token),
    }
}

// Reads the tokens of a text that begins at an offset of a file.
fn read_tokens(
    progress: &mut Progress,
    symbols: &mut SymTab,
    heap: &mut Heap,
    letters: &[char],
    start: u32,
    end: u32,
) -> Result<(), ReadFault>
    requires fits { start + utf8_length letters.now ≡ end }
    requires small { end < 2 ^ 31 }
    requires short { AllShort start (levels_of progress.old.levels) }
    ensures ok { OnOk result (run (world_of progress.old symbols.old heap.old) end (tokens 0 start letters.now) ≡ ended (levels_of progress.new.levels) (world_of progress.new symbols.new heap.new) end) }
    ensures refused { IfErr result (λ fault. IfSome (fault_of fault) (λ r. run (world_of progress.old symbols.old heap.old) end (tokens 0 start letters.now) ≡ Err r)) }
    ensures kept { KeepsAll symbols.old heap.old symbols.new heap.new }
{
    let mut rest = letters;
    let mut at = start;
    while !rest.is_empty() {
        let piece = first_piece(rest);
        read_piece(progress, symbols, heap, at, end, piece.token)?;
        at += utf8_length(&rest[..piece.size]) as u32;
        rest = without(piece.size, rest);
    }
    Ok(())
}

// The forms of a text that begins at an offset of a file and ends at its end.
#[tactic(auto, unfolding(crate::specs::Machine::ended))]
fn read_text(
    alloc: Global,
    symbols: &mut SymTab,
    heap: &mut Heap,
    letters: &[char],
    start: u32,
    end: u32,
) -> Result<Forms, ReadFault>
    requires fits { start + utf8_length letters.now ≡ end }
    requires small { end < 2 ^ 31 }
    ensures ok { IfOk result (λ forms. run (world [] [] (stock symbols.old heap.old)) end (tokens 0 start letters.now) ≡ Ok (world [] forms.items (stock symbols.new heap.new))) }
    ensures refused { IfErr result (λ fault. IfSome (fault_of fault) (λ r. run (world [] [] (stock symbols.old heap.old)) end (tokens 0 start letters.now) ≡ Err r)) }
    ensures kept { KeepsAll symbols.old heap.old symbols.new heap.new }
{
    let mut progress = Progress::new(alloc);
    read_tokens(&mut progress, symbols, heap, letters, start, end)?;
    let Progress { levels, forms } = progress;
    if levels.is_empty() {
        Ok(forms)
    } else {
        Err(ReadFault::Refused {
            kind: ReadKind::Eof,
            offset: end,
        })
    }
}

// The characters of a file after a byte order mark, and how many bytes that takes.
fn without_mark(letters: &[char]) -> (u32, &[char])
    ensures tokens { tokens 0 result.0 result.1.now ≡ text_tokens letters.now }
    ensures length { result.0 + utf8_length result.1.now ≡ utf8_length letters.now }
{
    match letters {
        ['\u{feff}', rest @ ..] => (3, rest),
        _ => (0, letters),
    }
}

// The characters of a text.
#[tactic(auto, using(std::proofs::lemmas::Str::chars_from_encodes))]
fn characters(alloc: Global, text: &str) -> Result<Vec<char>, AllocError>
    ensures { IfOk result (λ letters. letters.items ≡ chars text.now) }
{
    text.chars().collect(alloc)
}

/// The forms of the bytes of a file, with the symbols and objects that they add (ANSI Common Lisp
/// 2.2 to 2.4, for the syntax of this project).
///
/// # Errors
/// `Refused` exactly where the file has no forms, with the first cause and its place; want of
/// memory. In both cases the tables hold at least what they held, unchanged.
pub fn read_file(
    alloc: Global,
    bytes: &[u8],
    symbols: &mut SymTab,
    heap: &mut Heap,
) -> Result<Forms, ReadFault>
    ensures ok { IfOk result (λ forms. Reads bytes.now (stock symbols.old heap.old) (forms.items, stock symbols.new heap.new)) }
    ensures refused { IfErr result (λ fault. IfSome (fault_of fault) (IsRefusedAt bytes.now (stock symbols.old heap.old))) }
    ensures kept { KeepsAll symbols.old heap.old symbols.new heap.new }
{
    if bytes.len() > GREATEST_LENGTH {
        return Err(ReadFault::Refused {
            kind: ReadKind::TooLong,
            offset: GREATEST_LENGTH as u32,
        });
    }
    let text = match str::from_utf8(bytes) {
        Ok(text) => text,
        Err(error) => {
            return Err(ReadFault::Refused {
                kind: ReadKind::NotText,
                offset: error.valid_up_to() as u32,
            });
        }
    };
    let letters = characters(alloc, text)?;
    let (start, rest) = without_mark(letters.as_slice());
    read_text(alloc, symbols, heap, rest, start, bytes.len() as u32)
}
