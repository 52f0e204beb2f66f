//! A text, as the commands write it.
ghost use Rattle.std.specs.Prelude.{◌≤◌, List, ℕ};
ghost use Rattle.pyc_cli.specs.Told.{told_written};
ghost use Rattle.pyc_cli.specs.View.{close_of};
ghost use Rattle.pyc_cli.specs.Work.{Writes};

use crate::moving::{Wrote, put_all};
use crate::outcome::Outcome;
use outside_io::Sink;

/// Writes a text.
pub fn write_text<'a, O: Sink>(text: &str, out: &mut O) -> Outcome<'a>
    ensures writes { (input : List ℕ) → Writes (told_written text.now input) (close_of result) (O.sunk out.old) (O.sunk out.new) }
    ensures later { (O.sunk out.old).faults ≤ (O.sunk out.new).faults }
{
    match put_all(out, text.as_bytes()) {
        Wrote::All => Outcome::Written,
        Wrote::Failed => Outcome::WriteFault,
        Wrote::Memory => Outcome::Memory,
    }
}
