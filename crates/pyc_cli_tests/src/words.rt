use pyc_cli::{Command, Verb, WordFault, parse_words};
use std::alloc::Global;
use std::process::Abort;
use std::test::Fail;

/// The command that a line's words ask for, which single spaces part.
fn parse(alloc: Global, line: &str) -> Result<Result<Command, WordFault>, Fail> {
    let mut words = Vec::new(alloc);
    for word in line.split(' ') {
        words.push(String::from_str(alloc, word)?)?;
    }
    Ok(parse_words(alloc, &words))
}

/// A line's words are outside the grammar.
fn refused(rt: &impl Abort, alloc: Global, line: &str) -> Result<(), Fail> {
    assert_eq!(rt; parse(alloc, line)?.err(), Some(WordFault::Usage), "{line}");
    Ok(())
}

/// A line's words ask for this command with its operands.
fn asks_for(
    rt: &impl Abort,
    alloc: Global,
    line: &str,
    verb: Verb,
    operands: [&str; 2],
) -> Result<(), Fail> {
    let command = parse(alloc, line)??;
    let [first, second] = operands;
    assert_eq!(rt; command.verb, verb);
    assert_eq!(rt; command.first.as_str(), first);
    assert_eq!(rt; command.second.as_str(), second);
    assert_eq!(rt; command.count, 0);
    Ok(())
}

/// A line's words ask for a run of so many instructions, and bytes of the heap and of each stack.
fn has_limits(
    rt: &impl Abort,
    alloc: Global,
    line: &str,
    steps: u64,
    heap: u64,
    stack: u64,
) -> Result<(), Fail> {
    let command = parse(alloc, line)??;
    assert_eq!(rt; command.steps, steps, "{line}");
    assert_eq!(rt; command.heap, heap, "{line}");
    assert_eq!(rt; command.stack, stack, "{line}");
    Ok(())
}

#[test]
fn commands_have_their_operands(rt: HostRuntime) -> Result<(), Fail> {
    let alloc = rt.alloc();
    asks_for(&rt, alloc, "run in out", Verb::Run, ["in", "out"])?;
    asks_for(&rt, alloc, "exec x", Verb::Exec, ["x", ""])?;
    asks_for(&rt, alloc, "exec -x --steps 5", Verb::Exec, ["-x", ""])?;
    asks_for(&rt, alloc, "expand in", Verb::Expand, ["in", ""])?;
    asks_for(&rt, alloc, "disasm run", Verb::Disasm, ["run", ""])?;
    assert_eq!(rt; parse_words(alloc, &[]).err(), Some(WordFault::Usage));
    for line in [
        "",
        "run",
        "run in",
        "run in out more",
        "exec",
        "exec x y",
        "expand",
        "expand x y",
        "expands x",
        "disasm",
        "disasm x y",
        "Run in out",
        "ru in out",
        "list x",
    ] {
        refused(&rt, alloc, line)?;
    }
    Ok(())
}

#[test]
fn operands_have_1_to_255_bytes(rt: HostRuntime) -> Result<(), Fail> {
    let alloc = rt.alloc();
    let mut line = String::from_str(alloc, "exec ")?;
    for _ in 0..255 {
        line.push('x')?;
    }
    assert_eq!(rt; parse(alloc, line.as_str())??.first.len(), 255);
    line.push('x')?;
    refused(&rt, alloc, line.as_str())?;
    for line in [
        "exec ",
        "run  out",
        "run in ",
        "exec --x",
        "run in --",
        "disasm --steps",
    ] {
        refused(&rt, alloc, line)?;
    }
    Ok(())
}

#[test]
fn options_set_the_limits(rt: HostRuntime) -> Result<(), Fail> {
    let alloc = rt.alloc();
    let usual = 67_108_864;
    has_limits(&rt, alloc, "run in out", 1_000_000_000, usual, usual)?;
    has_limits(&rt, alloc, "exec x --heap 32", 1_000_000_000, 32, usual)?;
    has_limits(
        &rt,
        alloc,
        "run in out --stack 1024 --steps 1 --heap 16",
        1,
        16,
        1_024,
    )?;
    has_limits(
        &rt,
        alloc,
        "exec x --steps 1000000000000000000 --stack 268435456 --heap 268435456",
        1_000_000_000_000_000_000,
        268_435_456,
        268_435_456,
    )
}

#[test]
fn numbers_outside_their_range_are_refused(rt: HostRuntime) -> Result<(), Fail> {
    for line in [
        "exec x --steps 0",
        "exec x --steps 1000000000000000001",
        "exec x --steps 10000000000000000000",
        "exec x --steps 01",
        "exec x --steps +1",
        "exec x --steps 1x",
        "exec x --steps ",
        "exec x --heap 0",
        "exec x --heap 24",
        "exec x --heap 268435472",
        "exec x --stack 1008",
        "exec x --stack 1032",
        "exec x --stack 268435472",
    ] {
        refused(&rt, rt.alloc(), line)?;
    }
    Ok(())
}

#[test]
fn options_follow_the_operands_once_each(rt: HostRuntime) -> Result<(), Fail> {
    for line in [
        "exec x --steps",
        "exec x --steps 5 --steps 5",
        "exec x --heap 16 --steps 5 --heap 32",
        "exec x --step 5",
        "exec x --Heap 16",
        "exec x 5 --steps",
        "exec --steps 5 x",
        "run in --steps 5 out",
        "expand x --steps 5",
        "disasm x --steps 5",
        "disasm x --heap 16",
    ] {
        refused(&rt, rt.alloc(), line)?;
    }
    Ok(())
}
