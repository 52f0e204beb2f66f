//! The words of items.

ghost use Rattle.std.specs.Prelude.{◌≡◌, ◌+◌, ◌≤◌, ◌^◌, [], ◌∷◌, Some, None, MatchResult, OnOk, IfOk, IfErr, vec_len};
ghost use Rattle.rv_asm.specs.Places.{item_size, code_size, place_in};
ghost use Rattle.rv_asm.specs.Assembly.{branch_to, jump_to, address_of, instrs_at, instrs_from, IsFault};
ghost use Rattle.rv_asm.specs.Code.{Grew, GrewMade, HoldsMade, AreLawful};

use crate::fault::AsmFault;
use crate::item::Item;
use crate::labels::Labels;
use crate::reach::{branch_offset, high_bits, jump_offset, low_bits};
use rv_isa::fields::Register;
use rv_isa::instr::{Branch, ImmOp, Instr, Upper};
use rv_isa::words::encode;
use std::alloc::Global;

/// The place of a label, or that there is none.
fn place(labels: &Labels, label: u32) -> Result<u64, AsmFault>
    ensures place { MatchResult result
        (λ to. place_in labels.now label ≡ Some to)
        (λ e. (place_in labels.now label ≡ None) × (e ≡ AsmFault.UnknownLabel label)) }
    ensures short { IfOk result (λ to. to ≤ 2 ^ 30) }
{
    match labels.place(label) {
        Some(to) => Ok(to),
        None => Err(AsmFault::UnknownLabel { label }),
    }
}

/// The branch at a place to a label.
fn branch_to(
    labels: &Labels,
    at: u64,
    test: Branch,
    a: Register,
    b: Register,
    label: u32,
) -> Result<Instr, AsmFault>
    requires { at ≤ 2 ^ 30 }
    ensures { result ≡ branch_to labels.now at test a b label }
{
    let to = place(labels, label)?;
    match branch_offset(at, to) {
        Some(half) => Ok(Instr::Branch(test, a, b, half)),
        None => Err(AsmFault::FarBranch { from: at, to }),
    }
}

/// The jump at a place to a label.
fn jump_to(labels: &Labels, at: u64, link: Register, label: u32) -> Result<Instr, AsmFault>
    requires { at ≤ 2 ^ 30 }
    ensures { result ≡ jump_to labels.now at link label }
{
    let to = place(labels, label)?;
    match jump_offset(at, to) {
        Some(half) => Ok(Instr::Jal(link, half)),
        None => Err(AsmFault::FarBranch { from: at, to }),
    }
}

/// Appends the word of an instruction.
fn add_instr(code: &mut Vec<u8>, instr: Instr) -> Result<(), AsmFault>
    ensures grew { OnOk result (Grew code.old.items code.new.items (instr ∷ [])) }
    ensures size { OnOk result (vec_len code.new ≡ vec_len code.old + 4) }
    ensures fault { IfErr result (λ e. e ≡ AsmFault.Memory) }
{
    code.extend_from_slice(&encode(instr).to_le_bytes())?;
    Ok(())
}

/// Appends the two instructions at the end of the code after which a register holds the address of a label.
fn add_address(
    code: &mut Vec<u8>,
    labels: &Labels,
    to: Register,
    label: u32,
) -> Result<(), AsmFault>
    requires { vec_len code.old ≤ 2 ^ 30 }
    ensures grew { OnOk result
        (GrewMade code.old.items code.new.items (address_of labels.now (vec_len code.old) to label)) }
    ensures size { OnOk result (vec_len code.new ≡ vec_len code.old + 8) }
    ensures fault { IfErr result
        (λ e. IsFault e (address_of labels.now (vec_len code.old) to label)) }
{
    let at = code.len() as u64;
    let place = place(labels, label)?;
    add_instr(code, Instr::Upper(Upper::Auipc, to, high_bits(at, place)))?;
    add_instr(code, Instr::Imm(ImmOp::Addi, to, to, low_bits(at, place)))
}

/// Appends the words of an item.
fn add_item(code: &mut Vec<u8>, labels: &Labels, item: &Item) -> Result<(), AsmFault>
    requires { vec_len code.old ≤ 2 ^ 30 }
    ensures grew { OnOk result
        (GrewMade code.old.items code.new.items (instrs_at labels.now (vec_len code.old) item.now)) }
    ensures size { OnOk result (vec_len code.new ≡ vec_len code.old + item_size item.now) }
    ensures fault { IfErr result
        (λ e. IsFault e (instrs_at labels.now (vec_len code.old) item.now)) }
{
    let at = code.len() as u64;
    match *item {
        Item::Plain(instr) => add_instr(code, instr),
        Item::Label(_) => Ok(()),
        Item::BranchTo { test, a, b, label } => {
            let instr = branch_to(labels, at, test, a, b, label)?;
            add_instr(code, instr)
        }
        Item::JumpTo { link, label } => {
            let instr = jump_to(labels, at, link, label)?;
            add_instr(code, instr)
        }
        Item::AddressOf { to, label } => add_address(code, labels, to, label),
        Item::Site(_) => Ok(()),
    }
}

/// The code of items whose labels stand at these places.
pub(crate) fn code_of(alloc: Global, items: &[Item], labels: &Labels) -> Result<Vec<u8>, AsmFault>
    requires { code_size items.now ≤ 2 ^ 30 }
    ensures made { IfOk result (λ code. HoldsMade code.items (instrs_from labels.now 0 items.now)) }
    ensures lawful { IfOk result (λ code. AreLawful code.items) }
    ensures fault { IfErr result (λ e. IsFault e (instrs_from labels.now 0 items.now)) }
{
    let mut code = Vec::new(alloc);
    for item in items {
        add_item(&mut code, labels, item)?;
    }
    Ok(code)
}
