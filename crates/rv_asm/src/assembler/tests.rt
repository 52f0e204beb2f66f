ghost use Rattle.std.specs.Prelude.{◌^◌, ◌<◌};

use super::*;
use crate::assembled::Mark;
use rv_isa::fields::{Field, Register};
use rv_isa::instr::{Branch, Instr};
use std::test::Fail;

fn register(number: u32) -> Register
    requires { number < 2 ^ 5 }
{
    Field::of(number)
}

/// A number of instructions between two items.
fn between(alloc: Global, first: Item, count: usize, last: Item) -> Result<Vec<Item>, Fail> {
    let mut items = Vec::new(alloc);
    items.push(first)?;
    for _ in 0..count {
        items.push(Item::Plain(Instr::Ecall))?;
    }
    items.push(last)?;
    Ok(items)
}

fn branch(label: u32) -> Item {
    Item::BranchTo {
        test: Branch::Beq,
        a: register(0),
        b: register(0),
        label,
    }
}

fn address(label: u32) -> Item {
    Item::AddressOf {
        to: register(10),
        label,
    }
}

fn fault(assembled: Result<Assembled, AsmFault>) -> Option<AsmFault> {
    assembled.err()
}

#[test]
fn branches_reach_as_far_as_they_may(rt: HostRuntime) -> Result<(), Fail> {
    let near = between(rt.alloc(), branch(7), 1022, Item::Label(7))?;
    assert!(rt; near.len() <= 2000);
    assert_eq!(rt; fault(assemble(rt.alloc(), &near)), None);
    let far = between(rt.alloc(), branch(7), 1023, Item::Label(7))?;
    assert!(rt; far.len() <= 2000);
    assert_eq!(rt;
        fault(assemble(rt.alloc(), &far)),
        Some(AsmFault::FarBranch { from: 0, to: 4096 })
    );
    let near = between(rt.alloc(), Item::Label(7), 1024, branch(7))?;
    assert!(rt; near.len() <= 2000);
    assert_eq!(rt; fault(assemble(rt.alloc(), &near)), None);
    let far = between(rt.alloc(), Item::Label(7), 1025, branch(7))?;
    assert!(rt; far.len() <= 2000);
    assert_eq!(rt;
        fault(assemble(rt.alloc(), &far)),
        Some(AsmFault::FarBranch { from: 4100, to: 0 })
    );
    Ok(())
}

#[test]
fn labels_that_stand_twice_go_first(rt: HostRuntime) -> Result<(), Fail> {
    let items = [branch(1), Item::Label(2), Item::Label(2)];
    assert_eq!(rt;
        fault(assemble(rt.alloc(), &items)),
        Some(AsmFault::DoubleLabel { label: 2 })
    );
    let items = [branch(1), Item::Label(2)];
    assert_eq!(rt;
        fault(assemble(rt.alloc(), &items)),
        Some(AsmFault::UnknownLabel { label: 1 })
    );
    Ok(())
}

#[test]
fn words_and_marks(rt: HostRuntime) -> Result<(), Fail> {
    let items = [
        Item::Label(1),
        Item::Site(9),
        Item::AddressOf {
            to: register(10),
            label: 2,
        },
        Item::JumpTo {
            link: register(1),
            label: 2,
        },
        Item::Site(8),
        Item::AddressOf {
            to: register(10),
            label: 1,
        },
        Item::Label(2),
        Item::JumpTo {
            link: register(0),
            label: 1,
        },
    ];
    let a = assemble(rt.alloc(), &items)?;
    // auipc x10, 0; addi x10, x10, 20; jal x1, 12; auipc x10, 0; addi x10, x10, -12; jal x0, -20
    let code = [
        0x17, 0x05, 0x00, 0x00, 0x13, 0x05, 0x45, 0x01, 0xef, 0x00, 0xc0, 0x00, 0x17, 0x05, 0x00,
        0x00, 0x13, 0x05, 0x45, 0xff, 0x6f, 0xf0, 0xdf, 0xfe,
    ];
    assert_eq!(rt; a.code.as_slice(), code.as_slice());
    assert_eq!(rt;
        a.labels.as_slice(),
        [Mark { id: 1, at: 0 }, Mark { id: 2, at: 20 }].as_slice()
    );
    assert_eq!(rt;
        a.sites.as_slice(),
        [Mark { id: 9, at: 0 }, Mark { id: 8, at: 12 }].as_slice()
    );
    Ok(())
}

#[test]
fn addresses_carry_into_the_high_bits(rt: HostRuntime) -> Result<(), Fail> {
    let ahead = between(rt.alloc(), address(3), 510, Item::Label(3))?;
    assert!(rt; ahead.len() <= 2000);
    let a = assemble(rt.alloc(), &ahead)?;
    // 2,048 ahead: auipc x10, 1; addi x10, x10, -2048
    assert!(rt; a.code.len() >= 8);
    assert_eq!(rt;
        &a.code[..8],
        [0x17, 0x15, 0x00, 0x00, 0x13, 0x05, 0x05, 0x80].as_slice()
    );
    let back = between(rt.alloc(), Item::Label(3), 1024, address(3))?;
    assert!(rt; back.len() <= 2000);
    let a = assemble(rt.alloc(), &back)?;
    // 4,096 back: auipc x10, 0xfffff; addi x10, x10, 0
    assert!(rt; a.code.len() >= 4104);
    assert_eq!(rt;
        &a.code[4096..4104],
        [0x17, 0xf5, 0xff, 0xff, 0x13, 0x05, 0x05, 0x00].as_slice()
    );
    Ok(())
}
