//! The bytes of a word, which lie from its low end on.
ghost use Rattle.std.specs.Prelude.{◌≡◌, ◌+◌, ◌*◌, ◌/◌, ◌%◌, ◌^◌, ◌<◌, ◌≤◌};
ghost use Rattle.rv_isa.specs.Machine.{bytes_of, with_bytes};
ghost use Rattle.rv_isa.specs.Operations.{load_bytes, load_value, store_bytes};
ghost use Rattle.rv_machine.specs.Parts.{IsWidth};

use crate::operations::extended;
use rv_isa::instr::{Load, Store};

/// The number in `count` bytes of a word, from the byte at this address on.
pub(crate) fn bytes_of(word: u64, address: u64, count: u64) -> u64
    requires width { IsWidth count }
    requires aligned { address % count ≡ 0 }
    ensures value { result ≡ bytes_of word address count }
    ensures small { result < 2 ^ (count * 8) }
{
    if count == 8 {
        return word;
    }
    (word >> (address % 8 * 8)) % (1 << (count * 8))
}

/// A word with `count` of its bytes replaced by the low bytes of a number, from the byte at this address on.
pub(crate) fn with_bytes(word: u64, address: u64, count: u64, number: u64) -> u64
    requires width { IsWidth count }
    requires aligned { address % count ≡ 0 }
    ensures { result ≡ with_bytes word address count number }
{
    if count == 8 {
        return number;
    }
    with_bits(word, address % 8 * 8, count * 8, number)
}

/// A word with `bits` of its bits replaced by the low bits of a number, from this bit on.
fn with_bits(word: u64, from: u64, bits: u64, number: u64) -> u64
    requires from { from < 64 }
    requires bits { bits < 64 }
    requires inside { from + bits ≤ 64 }
    ensures { result ≡ (word / 2 ^ (from + bits) * 2 ^ bits + number % 2 ^ bits) * 2 ^ from + word % 2 ^ from }
{
    let limit = 1 << bits;
    let before = ((word >> from) % limit) << from;
    let after = (number % limit) << from;
    word - before + after
}

/// How many bytes an instruction loads.
pub(crate) fn load_bytes(op: Load) -> u64
    ensures count { result ≡ load_bytes op }
    ensures width { IsWidth result }
{
    match op {
        Load::Lb | Load::Lbu => 1,
        Load::Lh | Load::Lhu => 2,
        Load::Lw | Load::Lwu => 4,
        Load::Ld => 8,
    }
}

/// What is in the register after these bytes are loaded.
pub(crate) fn load_value(op: Load, number: u64) -> u64
    requires { number < 2 ^ (load_bytes op * 8) }
    ensures { result ≡ load_value op number }
{
    match op {
        Load::Lb => extended(8, number),
        Load::Lh => extended(16, number),
        Load::Lw => extended(32, number),
        Load::Ld | Load::Lbu | Load::Lhu | Load::Lwu => number,
    }
}

/// How many bytes an instruction stores.
pub(crate) fn store_bytes(op: Store) -> u64
    ensures count { result ≡ store_bytes op }
    ensures width { IsWidth result }
{
    match op {
        Store::Sb => 1,
        Store::Sh => 2,
        Store::Sw => 4,
        Store::Sd => 8,
    }
}
