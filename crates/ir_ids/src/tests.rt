use super::*;
use std::alloc::{AllocError, Global};
use std::test::*;

#[test]
fn numbers_come_back(rt: HostRuntime) {
    assert_eq!(rt; NodeId::of(1).number(), 1);
    assert_eq!(rt; ContId::of(2).number(), 2);
    assert_eq!(rt; BlockId::of(3).number(), 3);
    assert_eq!(rt; FunId::of(4).number(), 4);
    assert_eq!(rt; VarId::of(5).number(), 5);
    assert_eq!(rt; TnId::of(6).number(), 6);
}

// An arena with the values 10, 20 and 30, and the identifier of 20.
fn three(alloc: Global) -> Result<(Arena<TnId, u32>, TnId), AllocError> {
    let mut arena = Arena::new(alloc);
    let first = arena.add(10);
    let second = arena.add(20);
    let third = arena.add(30);
    match (first, second, third) {
        (Ok(_), Ok(id), Ok(_)) => Ok((arena, id)),
        _ => Err(AllocError),
    }
}

#[test]
fn entries_are_read_back(rt: HostRuntime) -> Result<(), Fail> {
    let (arena, id) = three(rt.alloc())?;
    assert_eq!(rt; arena.get(id), Some(&20));
    Ok(())
}

#[test]
fn a_changed_entry_gives_the_old_value(rt: HostRuntime) -> Result<(), Fail> {
    let (mut arena, id) = three(rt.alloc())?;
    assert_eq!(rt; arena.change(id, 21), Ok(20));
    assert_eq!(rt; arena.get(id), Some(&21));
    Ok(())
}

#[test]
fn an_entry_is_written_in_place(rt: HostRuntime) -> Result<(), Fail> {
    let (mut arena, id) = three(rt.alloc())?;
    if let Some(value) = arena.get_mut(id) {
        *value = 22;
    }
    assert_eq!(rt; arena.get(id), Some(&22));
    Ok(())
}

#[test]
fn a_retired_entry_is_gone(rt: HostRuntime) -> Result<(), Fail> {
    let (mut arena, id) = three(rt.alloc())?;
    assert_eq!(rt; arena.retire(id), Some(20));
    assert_eq!(rt; arena.get(id), None);
    assert_eq!(rt; arena.retire(id), None);
    assert_eq!(rt; arena.change(id, 5), Err(5));
    Ok(())
}

#[test]
fn other_entries_stay(rt: HostRuntime) -> Result<(), Fail> {
    let (mut arena, id) = three(rt.alloc())?;
    let last = arena.add(40).ok();
    arena.retire(id);
    assert_eq!(rt; last.and_then(|last| arena.get(last).copied()), Some(40));
    Ok(())
}
