use crate::events::{Event, Stop};
use crate::machine::Machine;
use crate::results;
use crate::sizes::Sizes;
use image::read;
use rv_isa::fields::Register;
use std::alloc::{AllocError, Global};
use std::str::SplitWhitespace;
use std::test::Fail;

/// The operands: 0, 1, -1, 2^31, -2^63 and 2^63 - 1.
const OPERANDS: [u64; 6] = [
    0,
    1,
    0xFFFF_FFFF_FFFF_FFFF,
    0x8000_0000,
    0x8000_0000_0000_0000,
    0x7FFF_FFFF_FFFF_FFFF,
];

/// Where the code and the heap start.
const CODE: u64 = 0x1_0000;

const HEAP: u64 = 0x4000_0000;

/// The word ECALL.
const ECALL: u32 = 0x73;

/// A machine with this instruction and the least sizes.
fn machine(alloc: Global, word: u32) -> Result<Machine, AllocError> {
    let sizes = Sizes {
        heap: 16,
        stack: 1024,
    };
    Machine::load_parts(alloc, &word.to_le_bytes(), &[], 0x1_0000, sizes)
}

/// The next word of a line, a number in hexadecimal.
fn number(words: &mut SplitWhitespace) -> Result<u64, Fail> {
    let word = words.next().ok_or("a number is missing")?;
    Ok(u64::from_str_radix(word, 16)?)
}

/// A machine whose instruction is the second word of a line.
fn machine_of(alloc: Global, words: &mut SplitWhitespace) -> Result<Machine, Fail> {
    let _name = words.next().ok_or("the name is missing")?;
    let word = words.next().ok_or("the word is missing")?;
    Ok(machine(alloc, u32::from_str_radix(word, 16)?)?)
}

/// Puts words in registers, goes back to the instruction, and makes one step. Answers whether the machine went on.
fn goes_with(machine: &mut Machine, x10: u64, x11: u64, x12: u64) -> bool {
    machine.pc = CODE;
    machine.registers.set(Register::of(10), x10);
    machine.registers.set(Register::of(11), x11);
    machine.registers.set(Register::of(12), x12);
    matches!(machine.step(&[]), Event::Went)
}

/// Whether x12 has the next number of a line, and the next instruction follows.
fn gives(machine: &Machine, words: &mut SplitWhitespace) -> Result<bool, Fail> {
    Ok(machine.reg(12) == Some(number(words)?) && machine.pc() == CODE + 4)
}

/// Whether an operation on x10 and x11 gives what a line says.
fn two_registers_give(alloc: Global, line: &str) -> Result<bool, Fail> {
    let mut words = line.split_whitespace();
    let mut machine = machine_of(alloc, &mut words)?;
    let a = number(&mut words)?;
    for b in OPERANDS {
        if !goes_with(&mut machine, a, b, 7) || !gives(&machine, &mut words)? {
            return Ok(false);
        }
    }
    Ok(true)
}

/// Whether an operation on x10 gives what a line says.
fn one_register_gives(alloc: Global, line: &str) -> Result<bool, Fail> {
    let mut words = line.split_whitespace();
    let mut machine = machine_of(alloc, &mut words)?;
    for a in OPERANDS {
        if !goes_with(&mut machine, a, 5, 7) || !gives(&machine, &mut words)? {
            return Ok(false);
        }
    }
    Ok(true)
}

/// Whether a branch on x10 and x11 leads where a line says.
fn branch_leads(alloc: Global, line: &str) -> Result<bool, Fail> {
    let mut words = line.split_whitespace();
    let mut machine = machine_of(alloc, &mut words)?;
    let a = number(&mut words)?;
    for b in OPERANDS {
        if !goes_with(&mut machine, a, b, 7) || machine.pc() != number(&mut words)? {
            return Ok(false);
        }
    }
    Ok(true)
}

/// Whether a jump leads where a line says, and links.
fn jump_leads(alloc: Global, line: &str) -> Result<bool, Fail> {
    let mut words = line.split_whitespace();
    let mut machine = machine_of(alloc, &mut words)?;
    let a = number(&mut words)?;
    let went = goes_with(&mut machine, a, 5, a);
    let link = number(&mut words)?;
    let target = number(&mut words)?;
    Ok(went && machine.reg(12) == Some(link) && machine.pc() == target)
}

/// Whether the first word of the heap goes to x12 as a line says.
fn load_gives(alloc: Global, line: &str) -> Result<bool, Fail> {
    let mut words = line.split_whitespace();
    let mut machine = machine_of(alloc, &mut words)?;
    let put = machine.memory.store(HEAP, 8, 0x8877_6655_44B3_A2F1);
    Ok(put && goes_with(&mut machine, HEAP, 5, 7) && gives(&machine, &mut words)?)
}

/// Whether x11 goes to the first word of the heap as a line says.
fn store_gives(alloc: Global, line: &str) -> Result<bool, Fail> {
    let mut words = line.split_whitespace();
    let mut machine = machine_of(alloc, &mut words)?;
    let put = machine.memory.store(HEAP, 8, 0x8877_6655_44B3_A2F1);
    let went = goes_with(&mut machine, HEAP, 0x0123_4567_89AB_CDEF, 7);
    let word = number(&mut words)?;
    Ok(put && went && machine.word(HEAP) == Some(word) && machine.word(HEAP + 8) == Some(0))
}

#[test]
fn operations(rt: HostRuntime) -> Result<(), Fail> {
    for line in results::two_registers().lines() {
        assert!(rt; two_registers_give(rt.alloc(), line)?, "{line}");
    }
    for line in results::one_register().lines() {
        assert!(rt; one_register_gives(rt.alloc(), line)?, "{line}");
    }
    Ok(())
}

#[test]
fn branches_and_jumps(rt: HostRuntime) -> Result<(), Fail> {
    for line in results::branches().lines() {
        assert!(rt; branch_leads(rt.alloc(), line)?, "{line}");
    }
    for line in results::jumps().lines() {
        assert!(rt; jump_leads(rt.alloc(), line)?, "{line}");
    }
    Ok(())
}

#[test]
fn loads_and_stores(rt: HostRuntime) -> Result<(), Fail> {
    for line in results::loads().lines() {
        assert!(rt; load_gives(rt.alloc(), line)?, "{line}");
    }
    for line in results::stores().lines() {
        assert!(rt; store_gives(rt.alloc(), line)?, "{line}");
    }
    Ok(())
}

/// What a run of up to `n` steps of the image of these bytes stops at.
fn stop_of(alloc: Global, bytes: &[u8], n: u64) -> Result<Stop, Fail> {
    let image = read(alloc, bytes).ok().ok_or("the bytes are no image")?;
    let sizes = Sizes::new(4096, 4096).ok_or("the sizes are within the limits")?;
    let mut machine = Machine::load(alloc, &image, sizes)?;
    Ok(machine.run(n, &[]))
}

/// An image of 60 bytes: code 00 00 00 00, no statics, four empty tables, the entry at the code's start.
fn zero_image() -> &'static [u8] {
    b"PYIM\x01\0\0\0\x04\0\0\0\0\0\0\0\0\0\0\0\0\0\0\0\x10\0\0\0\0\0\0\0\0\0\x01\0\0\0\0\0\
      \0\0\0\0\0\0\0\0\0\0\0\0\0\0\0\0\0\0\0\0"
}

/// The same with the code ADDI x17, x0, 5 and ECALL.
fn heap_image() -> &'static [u8] {
    b"PYIM\x01\0\0\0\x08\0\0\0\0\0\0\0\0\0\0\0\0\0\0\0\x10\0\0\0\0\0\0\0\0\0\x01\0\0\0\0\0\
      \x93\x08\x50\0\x73\0\0\0\0\0\0\0\0\0\0\0\0\0\0\0\0\0\0\0"
}

#[test]
fn images(rt: HostRuntime) -> Result<(), Fail> {
    let stop = stop_of(rt.alloc(), zero_image(), 10)?;
    assert!(rt; stop.steps == 1 && stop.event == Event::Trap { pc: CODE });
    let stop = stop_of(rt.alloc(), heap_image(), 10)?;
    assert!(rt; stop.steps == 2 && stop.event == Event::Heap);
    let stop = stop_of(rt.alloc(), heap_image(), 1)?;
    assert!(rt; stop.steps == 1 && stop.event == Event::Went);
    Ok(())
}

/// What ECALL does with this number in x17, this in x16 and this in x10.
fn call(alloc: Global, number: u64, x16: u64, x10: u64) -> Result<Event, Fail> {
    let mut machine = machine(alloc, ECALL)?;
    machine.registers.set(Register::of(17), number);
    machine.registers.set(Register::of(16), x16);
    machine.registers.set(Register::of(10), x10);
    Ok(machine.step(&[]))
}

#[test]
fn environment_calls(rt: HostRuntime) -> Result<(), Fail> {
    let trap = Event::Trap { pc: CODE };
    let error = Event::Error {
        kind: 10,
        a: 24,
        b: 0,
        c: 0,
        pc: CODE,
    };
    for (number, x16, x10, event) in [
        (0, 0, 0, trap),
        (1, 0xE9, 0, Event::Wrote(0xE9)),
        (1, 0xD800, 0, trap),
        (1, 0x11_0000, 0, trap),
        (3, 0, 20, Event::Value(20)),
        (4, 0, 24, trap),
        (4, 10, 24, error),
        (4, 11, 24, trap),
        (5, 0, 0, Event::Heap),
        (6, 0, 0, Event::Stack),
        (7, 0, 0, trap),
    ] {
        assert!(rt;
            call(rt.alloc(), number, x16, x10)? == event,
            "{number} {x16}"
        );
    }
    Ok(())
}

/// What call 2 puts in x16.
fn read_with(machine: &mut Machine, input: &[char]) -> Option<u64> {
    machine.pc = CODE;
    machine.registers.set(Register::of(17), 2);
    let _event = machine.step(input);
    machine.reg(16)
}

#[test]
fn reads(rt: HostRuntime) -> Result<(), Fail> {
    let mut machine = machine(rt.alloc(), ECALL)?;
    assert!(rt; read_with(&mut machine, &['a', 'b']) == Some(97));
    assert!(rt; read_with(&mut machine, &['a', 'b']) == Some(98));
    assert!(rt; read_with(&mut machine, &['a', 'b']) == Some(u64::MAX));
    assert!(rt; read_with(&mut machine, &['a', 'b', 'c']) == Some(99));
    Ok(())
}

/// Whether an instruction goes on with this address in x10. If it doesn't, it traps, and goes on trapping.
fn goes_at(alloc: Global, word: u32, address: u64) -> Result<bool, Fail> {
    let mut machine = machine(alloc, word)?;
    let went = goes_with(&mut machine, address, 0, 0);
    Ok(went || machine.step(&[]) != Event::Trap { pc: CODE })
}

#[test]
fn regions(rt: HostRuntime) -> Result<(), Fail> {
    for (address, reads, writes) in [
        (0x1_0000, true, false),
        (0x1_0004, false, false),
        (0xFFFC, false, false),
        (0x2000_0000, false, false),
        (HEAP, true, true),
        (HEAP + 2, false, false),
        (HEAP + 12, true, true),
        (HEAP + 16, false, false),
        (0x6000_03FC, true, true),
        (0x6000_0400, false, false),
        (0x7000_03FC, true, true),
        (0x7000_0400, false, false),
        (u64::MAX - 3, false, false),
    ] {
        // LW x12, 0(x10) and SW x11, 0(x10)
        assert!(rt;
            goes_at(rt.alloc(), 0x0005_2603, address)? == reads,
            "{address}"
        );
        assert!(rt;
            goes_at(rt.alloc(), 0x00B5_2023, address)? == writes,
            "{address}"
        );
    }
    Ok(())
}

/// The code LB, LH, LW and LD x12, 0(x10), and JALR x0, 0(x10), whose last word is half of eight bytes.
const EDGES: [u8; 20] = [
    0x03, 0x06, 0x05, 0, 0x03, 0x16, 0x05, 0, 0x03, 0x26, 0x05, 0, 0x03, 0x36, 0x05, 0, 0x67, 0,
    0x05, 0,
];

/// What x12 holds after the instruction with this number, with this address in x10, None where it traps.
fn loaded(machine: &mut Machine, instruction: u32, address: u64) -> Option<u64> {
    machine.ending = None;
    machine.pc = CODE + 4 * u64::from(instruction);
    machine.registers.set(Register::of(10), address);
    match machine.step(&[]) {
        Event::Went => machine.reg(12),
        _ => None,
    }
}

#[test]
fn edges_of_code_and_statics(rt: HostRuntime) -> Result<(), Fail> {
    let sizes = Sizes {
        heap: 16,
        stack: 1024,
    };
    let mut machine = Machine::load_parts(rt.alloc(), &EDGES, &[1; 8], CODE, sizes)?;
    for (instruction, address, x12) in [
        (0, CODE - 1, None),
        (0, CODE + 18, Some(5)),
        (0, CODE + 20, None),
        (1, CODE + 18, Some(5)),
        (1, CODE + 20, None),
        (2, CODE + 16, Some(0x0005_0067)),
        (2, CODE + 20, None),
        (3, CODE + 8, Some(0x0005_3603_0005_2603)),
        (3, CODE + 16, None),
        (0, 0x1FFF_FFFF, None),
        (3, 0x2000_0000, Some(0x0101_0101_0101_0101)),
        (0, 0x2000_0007, Some(1)),
        (0, 0x2000_0008, None),
    ] {
        assert!(rt;
            loaded(&mut machine, instruction, address) == x12,
            "{instruction} {address}"
        );
    }
    Ok(())
}

/// What the instruction does that a jump with this target leads to.
fn led_to(machine: &mut Machine, target: u64) -> Event {
    machine.ending = None;
    machine.pc = CODE + 16;
    machine.registers.set(Register::of(10), target);
    let _jumped = machine.step(&[]);
    machine.step(&[])
}

#[test]
fn jumps_to_the_edges(rt: HostRuntime) -> Result<(), Fail> {
    let sizes = Sizes {
        heap: 16,
        stack: 1024,
    };
    let mut machine = Machine::load_parts(rt.alloc(), &EDGES, &[1; 8], CODE, sizes)?;
    assert!(rt; led_to(&mut machine, CODE) == Event::Went);
    assert!(rt; led_to(&mut machine, CODE + 17) == Event::Went);
    for pc in [
        CODE - 4,
        CODE + 2,
        CODE + 20,
        0x2000_0000,
        HEAP,
        u64::MAX - 3,
    ] {
        assert!(rt; led_to(&mut machine, pc) == Event::Trap { pc }, "{pc}");
    }
    Ok(())
}

/// The greatest stacks touch: the control stack's last word and the number stack's first are neighbours.
#[test]
fn stacks_that_touch(rt: HostRuntime) -> Result<(), Fail> {
    let sizes = Sizes {
        heap: 16,
        stack: 0x1000_0000,
    };
    let mut machine = Machine::load_parts(rt.alloc(), &EDGES, &[], CODE, sizes)?;
    assert!(rt; machine.memory.store(0x6FFF_FFF8, 8, 0x8877_6655_4433_2211));
    assert!(rt; machine.memory.store(0x7000_0000, 8, 0x00FF_EEDD_CCBB_AA99));
    assert!(rt; loaded(&mut machine, 2, 0x6FFF_FFFC) == Some(0xFFFF_FFFF_8877_6655));
    assert!(rt; loaded(&mut machine, 2, 0x7000_0000) == Some(0xFFFF_FFFF_CCBB_AA99));
    assert!(rt; loaded(&mut machine, 3, 0x6FFF_FFFC) == None);
    assert!(rt; machine.word(0x6FFF_FFF8) == Some(0x8877_6655_4433_2211));
    assert!(rt; machine.word(0x7FFF_FFF8) == Some(0));
    assert!(rt; machine.word(0x8000_0000) == None);
    Ok(())
}
