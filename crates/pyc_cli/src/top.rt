//! The top call.
ghost use Rattle.std.specs.Prelude.{◌≡◌, ◌⊎◌, map, string_bytes};
ghost use Rattle.pyc_cli.specs.Order.{order_of};
ghost use Rattle.pyc_cli.specs.Stages.{word_close};
ghost use Rattle.pyc_cli.specs.Tool.{Ends, TellsVerb, verb_gets_first, AsTold, ChangesOnly, Makes, RoseInRead, RoseInWrite, WasSet, name_set};
ghost use Rattle.pyc_cli.specs.View.{close_of, order};
ghost use Rattle.pyc_cli.specs.Work.{Does, outside};

use crate::command::{Command, Verb};
use crate::commands::{exec, run};
use crate::expanded::expand;
use crate::line::put_line;
use crate::listed::disasm;
use crate::outcome::Outcome;
use crate::status::Status;
use crate::words::{WordFault, parse_words};
use outside_io::{Sink, Source, Store};
use std::alloc::Global;

/// What a call comes to whose words are no command.
fn no_command<'a>(fault: WordFault) -> Outcome<'a>
    ensures { close_of result ≡ word_close fault }
{
    match fault {
        WordFault::Usage => Outcome::Usage,
        WordFault::Memory => Outcome::Memory,
    }
}

/// Does what a command says, up to its last line.
pub fn perform<'a, F: Store, I: Source, O: Sink>(
    alloc: Global,
    command: &'a Command,
    files: &mut F,
    input: &mut I,
    out: &mut O,
) -> Outcome<'a>
    ensures { Does (verb_gets_first command.now.verb) (λ names left t. TellsVerb command.now.verb (order command.now) names left t) (close_of result) (outside (F.kept files.old) (I.fed input.old) (O.sunk out.old)) (outside (F.kept files.new) (I.fed input.new) (O.sunk out.new)) }
{
    match command.verb {
        Verb::Exec => exec(alloc, command, files, input, out),
        Verb::Run => run(alloc, command, files, input, out),
        Verb::Expand => expand(alloc, command, files, out),
        Verb::Disasm => disasm(alloc, command, files, out),
    }
}

/// Does what the words ask for, and puts one line of how it ended on `err`.
pub fn tool<F: Store, I: Source, O: Sink, E: Sink>(
    alloc: Global,
    words: &[String],
    files: &mut F,
    input: &mut I,
    out: &mut O,
    err: &mut E,
) -> Status
    // The work is done up to an ending or a fault, and the line of that is put.
    ensures ends { Ends (order_of (map string_bytes words.now)) result (outside (F.kept files.old) (I.fed input.old) (O.sunk out.old)) (outside (F.kept files.new) (I.fed input.new) (O.sunk out.new)) (E.sunk err.old) (E.sunk err.new) }
    // Once the image was set, it does what the program of the source does that the first operand held.
    ensures makes { WasSet result (outside (F.kept files.old) (I.fed input.old) (O.sunk out.old)) (outside (F.kept files.new) (I.fed input.new) (O.sunk out.new)) → Makes (order_of (map string_bytes words.now)) (F.kept files.old).names (F.kept files.new).names }
    // A fault has its cause.
    ensures read { result ≡ Status.ReadFault → RoseInRead (outside (F.kept files.old) (I.fed input.old) (O.sunk out.old)) (outside (F.kept files.new) (I.fed input.new) (O.sunk out.new)) }
    ensures write { result ≡ Status.WriteFault → RoseInWrite (outside (F.kept files.old) (I.fed input.old) (O.sunk out.old)) (outside (F.kept files.new) (I.fed input.new) (O.sunk out.new)) (E.sunk err.old) (E.sunk err.new) }
    // The store changes at the name that the command sets, and there alone.
    ensures only { ChangesOnly (name_set (order_of (map string_bytes words.now))) (F.kept files.old).names (F.kept files.new).names }
    // Where no count of faults rose all is as told, but for want of memory.
    ensures complete { (RoseInRead (outside (F.kept files.old) (I.fed input.old) (O.sunk out.old)) (outside (F.kept files.new) (I.fed input.new) (O.sunk out.new)) → ⊥) → (RoseInWrite (outside (F.kept files.old) (I.fed input.old) (O.sunk out.old)) (outside (F.kept files.new) (I.fed input.new) (O.sunk out.new)) (E.sunk err.old) (E.sunk err.new) → ⊥) → AsTold (order_of (map string_bytes words.now)) result (outside (F.kept files.old) (I.fed input.old) (O.sunk out.old)) (outside (F.kept files.new) (I.fed input.new) (O.sunk out.new)) (E.sunk err.old) (E.sunk err.new) ⊎ (result ≡ Status.Memory) }
{
    match parse_words(alloc, words) {
        Ok(command) => {
            let outcome = perform(alloc, &command, files, input, out);
            put_line(alloc, &outcome, err)
        }
        Err(fault) => put_line(alloc, &no_command(fault), err),
    }
}
