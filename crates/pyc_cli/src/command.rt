//! A command of the tool.
ghost use Rattle.rv_machine.specs.Limits.{AreSizes};

/// What a command does.
#[derive(Clone, Copy, PartialEq, Eq, Debug, Drop)]
pub enum Verb {
    /// Compiles a file, sets its image, and runs it.
    Run,
    /// Runs an image.
    Exec,
    /// Writes what a file expands to, a line a form.
    Expand,
    /// Lists the code of an image, a line an instruction.
    Disasm,
}

/// A command with its operands.
#[derive(Debug, Drop)]
pub struct Command {
    /// What it does.
    pub verb: Verb,
    /// Its first operand.
    pub first: String,
    /// Its second operand, empty where it has none.
    pub second: String,
    /// The number of a bench, else 0.
    pub count: u32,
    /// How many instructions a run may take.
    pub steps: u64,
    /// The bytes of a run's heap.
    pub heap: u64,
    /// The bytes of each of a run's two stacks.
    pub stack: u64,
    pub ghost sizes: { AreSizes heap stack },
}
