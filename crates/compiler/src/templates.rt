// The instructions that each kind of form becomes.
ghost use Rattle.std.specs.Prelude.{◌≡◌, ◌+◌, ◌*◌, ◌^◌, ◌<◌};
ghost use Rattle.compiler.specs.Templates.{plain as plain_slot, signals as signal_slot, add as add_slot, nil_slots as nil_of, word_slots as word_of, read_slots as read_of, check_slots as check_of, write_slots as write_of, skip as skip_slot, test_slots as test_of, end_slots as end_of};

use crate::slot::Slot;
use lisp_base::Place;
use rv_isa::fields::Field;
use rv_isa::instr::{Branch, ImmOp, Instr, Shift, Upper};

/// The register that is always 0.
const ZERO: u32 = 0;
/// A register that is free between templates.
const SCRATCH: u32 = 5;
/// The register in which the value of a form stands.
const VALUE: u32 = 10;
/// The register of the argument, and of the answer, of an environment call.
const ARGUMENT: u32 = 16;
/// The register of the number of an environment call.
const CALL: u32 = 17;
/// The register that holds NIL.
const NIL: u32 = 19;

/// An instruction that signals no error.
fn plain(instr: Instr) -> Slot
    ensures { result ≡ plain_slot instr }
{
    Slot { instr, site: None }
}

/// The environment call that signals the error of the form at a place.
fn signals(place: Place) -> Slot
    ensures { result ≡ signal_slot place }
{
    Slot {
        instr: Instr::Ecall,
        site: Some(place),
    }
}

/// A register becomes another one plus a small number.
fn add(target: u32, source: u32, number: u32) -> Slot
    requires target { target < 2 ^ 5 }
    requires source { source < 2 ^ 5 }
    requires number { number < 2 ^ 12 }
    ensures { result ≡ add_slot target source number }
{
    plain(Instr::Imm(
        ImmOp::Addi,
        Field::of(target),
        Field::of(source),
        Field::of(number),
    ))
}

/// The value NIL.
pub fn nil_slots() -> [Slot; 1]
    ensures { result ≡ nil_of }
{
    [add(VALUE, NIL, 0)]
}

/// A value by its word.
pub fn word_slots(word: u32) -> [Slot; 2]
    requires { word < 2 ^ 31 }
    ensures { result ≡ word_of word }
{
    let upper = Instr::Upper(
        Upper::Lui,
        Field::of(SCRATCH),
        Field::of((word + 2048) / 4096),
    );
    [plain(upper), add(VALUE, SCRATCH, word % 4096)]
}

/// A character of the input, or NIL at its end.
pub fn read_slots() -> [Slot; 8]
    ensures { result ≡ read_of }
{
    let at_end = Instr::Branch(
        Branch::Beq,
        Field::of(ARGUMENT),
        Field::of(SCRATCH),
        Field::of(8),
    );
    let shift = Instr::Shift(
        Shift::Sll,
        Field::of(ARGUMENT),
        Field::of(ARGUMENT),
        Field::of(8),
    );
    [
        add(CALL, ZERO, 2),
        plain(Instr::Ecall),
        add(SCRATCH, ZERO, 4095),
        plain(at_end),
        plain(shift),
        add(VALUE, ARGUMENT, 2),
        plain(Instr::Jal(Field::of(ZERO), Field::of(4))),
        add(VALUE, NIL, 0),
    ]
}

/// On only with a character: else the TYPE-ERROR of the form at this place.
pub fn check_slots(place: Place) -> [Slot; 6]
    ensures { result ≡ check_of place }
{
    let tag = Instr::Imm(
        ImmOp::Andi,
        Field::of(SCRATCH),
        Field::of(VALUE),
        Field::of(255),
    );
    let is_character = Instr::Branch(
        Branch::Beq,
        Field::of(SCRATCH),
        Field::of(ARGUMENT),
        Field::of(8),
    );
    [
        plain(tag),
        add(ARGUMENT, ZERO, 2),
        plain(is_character),
        add(CALL, ZERO, 4),
        add(ARGUMENT, ZERO, 1),
        signals(place),
    ]
}

/// The character of the value goes to the output.
pub fn write_slots() -> [Slot; 3]
    ensures { result ≡ write_of }
{
    let shift = Instr::Shift(
        Shift::Srl,
        Field::of(ARGUMENT),
        Field::of(VALUE),
        Field::of(8),
    );
    [plain(shift), add(CALL, ZERO, 1), plain(Instr::Ecall)]
}

/// A jump over so many instructions.
pub fn skip(count: u32) -> Slot
    requires { 2 * (count + 1) < 2 ^ 20 }
    ensures { result ≡ skip_slot count }
{
    plain(Instr::Jal(Field::of(ZERO), Field::of(2 * (count + 1))))
}

/// On with the next so many instructions unless the value is NIL, and then past them and one more.
pub fn test_slots(count: u32) -> [Slot; 2]
    requires { 2 * (count + 2) < 2 ^ 20 }
    ensures { result ≡ test_of count }
{
    let is_true = Instr::Branch(Branch::Bne, Field::of(VALUE), Field::of(NIL), Field::of(4));
    [plain(is_true), skip(count + 1)]
}

/// The run ends with the value.
pub fn end_slots() -> [Slot; 2]
    ensures { result ≡ end_of }
{
    [add(CALL, ZERO, 3), plain(Instr::Ecall)]
}
