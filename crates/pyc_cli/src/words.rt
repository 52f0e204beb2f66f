//! What the words of a command line ask for.
ghost use Rattle.std.specs.Prelude.{◌≡◌, map, string_bytes, IfOk};
ghost use Rattle.std.specs.List.{list_all};
ghost use Rattle.pyc_cli.specs.Order.{order_of, is_operand as is_lawful_operand, shape_of as lawful_shape, operand as lawful_operand, ordered, shaped as shaped_order};
ghost use Rattle.pyc_cli.specs.Asked.{Parses, given};
ghost use Rattle.pyc_cli.specs.View.{order};
ghost use Rattle.pyc_cli.specs.declared.words.WordFault.TheVariants.{Memory};

use crate::command::{Command, Verb};
use crate::options::Options;
use std::alloc::{AllocError, Global};

/// The longest operand, in bytes.
const OPERAND_LIMIT: usize = 255;

/// Why words are no command.
#[derive(Clone, Copy, PartialEq, Eq, Debug, Drop)]
pub enum WordFault {
    /// They are outside the grammar.
    Usage,
    /// There was no memory for the command.
    Memory,
}

impl From<AllocError> for WordFault {
    ghost from_gives = { λ _ e. e ≡ Memory };

    fn from(_: AllocError) -> WordFault {
        WordFault::Memory
    }
}

/// What stands after a command: how many operands, and whether the options of a run may follow.
#[derive(Clone, Copy, Drop)]
struct Shape {
    verb: Verb,
    operands: usize,
    runs: bool,
}

/// The command that a word names.
fn shape_of(word: &str) -> Option<Shape>
    ensures { result ≡ lawful_shape word.now }
{
    match word {
        "run" => Some(Shape {
            verb: Verb::Run,
            operands: 2,
            runs: true,
        }),
        "exec" => Some(Shape {
            verb: Verb::Exec,
            operands: 1,
            runs: true,
        }),
        "expand" => Some(Shape {
            verb: Verb::Expand,
            operands: 1,
            runs: false,
        }),
        "disasm" => Some(Shape {
            verb: Verb::Disasm,
            operands: 1,
            runs: false,
        }),
        _ => None,
    }
}

/// An operand has 1 to 255 bytes and doesn't begin with `--`.
fn is_operand(word: &str) -> bool
    ensures { result ≡ is_lawful_operand word.now }
{
    !word.is_empty() && word.len() <= OPERAND_LIMIT && !word.as_bytes().starts_with(b"--")
}

/// Whether each of the words is an operand.
fn are_operands(words: &[String]) -> bool
    ensures { result ≡ list_all is_lawful_operand (map string_bytes words.now) }
{
    words.iter().all(|word| is_operand(word.as_str()))
}

/// The operand with this number from 0, empty where there is none.
fn operand(alloc: Global, operands: &[String], number: usize) -> Result<String, AllocError>
    ensures { IfOk result (λ text. string_bytes text ≡ lawful_operand (map string_bytes operands.now) number) }
{
    match operands.get(number) {
        Some(text) => text.clone(),
        None => Ok(String::new(alloc)),
    }
}

/// A command with its operands and options.
fn command(
    alloc: Global,
    verb: Verb,
    operands: &[String],
    options: &Options,
) -> Result<Command, AllocError>
    ensures { IfOk result (λ command. order command ≡ ordered verb (map string_bytes operands.now) (given options.now)) }
{
    Ok(Command {
        verb,
        first: operand(alloc, operands, 0)?,
        second: operand(alloc, operands, 1)?,
        count: 0,
        steps: options.steps(),
        heap: options.heap(),
        stack: options.stack(),
    })
}

/// The command of a shape, from the words after its name.
fn shaped(alloc: Global, shape: Shape, words: &[String]) -> Result<Command, WordFault>
    ensures { Parses (shaped_order shape (map string_bytes words.now)) result }
{
    if words.len() < shape.operands {
        return Err(WordFault::Usage);
    }
    let (operands, rest) = words.split_at(shape.operands);
    if !are_operands(operands) {
        return Err(WordFault::Usage);
    }
    let options = Options::parse(shape.runs, rest).ok_or(WordFault::Usage)?;
    Ok(command(alloc, shape.verb, operands, &options)?)
}

/// The command that the words ask for; `Usage` exactly where they are outside the grammar: the
/// command, its operands, and then the options of a run in any order, each at most once.
/// So far `run IN OUT`, `exec IMAGE`, `expand IN` and `disasm IMAGE`, of which the first two take
/// options: `--steps N`, `--heap N` and `--stack N`.
pub fn parse_words(alloc: Global, words: &[String]) -> Result<Command, WordFault>
    ensures { Parses (order_of (map string_bytes words.now)) result }
{
    match words {
        [word, rest @ ..] => {
            let shape = shape_of(word.as_str()).ok_or(WordFault::Usage)?;
            shaped(alloc, shape, rest)
        }
        [] => Err(WordFault::Usage),
    }
}
