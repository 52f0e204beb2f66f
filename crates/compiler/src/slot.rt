// An instruction with the error that it may signal.
use lisp_base::Place;
use rv_isa::instr::Instr;

/// An instruction of a program's code.
#[derive(Clone, Copy, Debug)]
pub struct Slot {
    /// What it does.
    pub instr: Instr,
    /// The place of the form whose error it signals, where it signals one. The value is then no character.
    pub site: Option<Place>,
}
