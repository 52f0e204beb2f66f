use crate::calls::{RUN, call};
use outside_io::{Source, Took};
use pyc_cli::Status;
use std::alloc::Global;
use std::process::Abort;
use std::test::Fail;

const ECHO: &[u8] = b"(write-char (read-char nil nil))";

/// Runs a source on an input, and compares what comes.
fn check(
    rt: &impl Abort,
    alloc: Global,
    source: &[u8],
    input: &[u8],
    status: Status,
    out: &[u8],
    err: &[u8],
) -> Result<(), Fail> {
    let left = call(alloc, &RUN, source, input, [0, 0, 0, 0])?;
    assert_eq!(rt; left.err.bytes(), err);
    assert_eq!(rt; left.status, status);
    assert_eq!(rt; left.out.bytes(), out);
    assert_eq!(rt; left.files.look("out").is_some(), true);
    Ok(())
}

#[test]
fn an_empty_source_gives_nil(rt: HostRuntime) -> Result<(), Fail> {
    check(&rt, rt.alloc(), b"", b"", Status::Done, b"", b"value NIL\n")
}

#[test]
fn a_character_is_echoed(rt: HostRuntime) -> Result<(), Fail> {
    let value = "value #\\é\n".as_bytes();
    check(
        &rt,
        rt.alloc(),
        ECHO,
        "é".as_bytes(),
        Status::Done,
        "é".as_bytes(),
        value,
    )
}

#[test]
fn no_character_is_an_error(rt: HostRuntime) -> Result<(), Fail> {
    let error = b"error TYPE-ERROR NIL CHARACTER form=0\n";
    check(&rt, rt.alloc(), ECHO, b"", Status::LispError, b"", error)
}

#[test]
fn the_end_of_the_input_is_false(rt: HostRuntime) -> Result<(), Fail> {
    let choice = b"(if (read-char nil nil) #\\y #\\n)";
    check(
        &rt,
        rt.alloc(),
        choice,
        b"",
        Status::Done,
        b"",
        b"value #\\n\n",
    )
}

#[test]
fn what_was_written_before_an_error_stays(rt: HostRuntime) -> Result<(), Fail> {
    let typed = b"(progn (write-char #\\a) (the character nil) (write-char #\\b))";
    let error = b"error TYPE-ERROR NIL CHARACTER form=24\n";
    check(&rt, rt.alloc(), typed, b"", Status::LispError, b"a", error)
}

/// A call of these words finds no `none`.
fn is_absent(rt: &impl Abort, alloc: Global, words: &[&str]) -> Result<(), Fail> {
    let left = call(alloc, words, b"", b"", [0, 0, 0, 0])?;
    assert_eq!(rt; left.status, Status::Absent);
    assert_eq!(rt; left.err.bytes(), b"absent none\n".as_slice());
    Ok(())
}

#[test]
fn words_and_names_are_told(rt: HostRuntime) -> Result<(), Fail> {
    let left = call(rt.alloc(), &["run", "a"], b"", b"", [0, 0, 0, 0])?;
    assert_eq!(rt; left.status, Status::Usage);
    assert_eq!(rt;
        left.err.bytes(),
        b"usage: pyc compile IN OUT | exec IMAGE | run IN OUT | expand IN | disasm IMAGE | bench N OUT\n".as_slice()
    );
    is_absent(&rt, rt.alloc(), &["run", "none", "out"])?;
    is_absent(&rt, rt.alloc(), &["expand", "none"])?;
    let left = call(rt.alloc(), &["run", "in", "--out"], b"", b"", [0, 0, 0, 0])?;
    assert_eq!(rt; left.status, Status::Usage);
    Ok(())
}

#[test]
fn an_input_is_text_within_its_limit(rt: HostRuntime) -> Result<(), Fail> {
    let text = b"input not text at 1\n";
    check(
        &rt,
        rt.alloc(),
        b"",
        b"a\xff",
        Status::InputNotText,
        b"",
        text,
    )?;
    let long = vec![in rt.alloc(); 32; 16_777_217]?;
    check(
        &rt,
        rt.alloc(),
        b"",
        &long,
        Status::InputTooLong,
        b"",
        b"input too long\n",
    )
}

#[test]
fn faults_of_reading_are_told(rt: HostRuntime) -> Result<(), Fail> {
    let left = call(rt.alloc(), &RUN, ECHO, b"x", [1, 0, 0, 0])?;
    assert_eq!(rt; left.status, Status::ReadFault);
    let left = call(rt.alloc(), &RUN, ECHO, b"x", [0, 1, 0, 0])?;
    assert_eq!(rt; left.status, Status::ReadFault);
    assert_eq!(rt; left.err.bytes(), b"read fault\n".as_slice());
    Ok(())
}

#[test]
fn nothing_is_taken_after_a_failed_take(rt: HostRuntime) -> Result<(), Fail> {
    let mut text = vec![in rt.alloc(); 120; 4096]?;
    text.push(121)?;
    let mut left = call(rt.alloc(), &RUN, ECHO, &text, [0, 2, 0, 0])?;
    assert_eq!(rt; left.status, Status::ReadFault);
    let mut rest = [0u8; 2];
    assert_eq!(rt; left.input.take(&mut rest), Took::Bytes(1));
    assert_eq!(rt; rest[0], 121);
    Ok(())
}

#[test]
fn faults_of_writing_are_told(rt: HostRuntime) -> Result<(), Fail> {
    let left = call(rt.alloc(), &RUN, ECHO, b"x", [2, 0, 0, 0])?;
    assert_eq!(rt; left.status, Status::WriteFault);
    let left = call(rt.alloc(), &RUN, ECHO, b"x", [0, 0, 1, 0])?;
    assert_eq!(rt; left.status, Status::WriteFault);
    assert_eq!(rt; left.out.bytes(), b"".as_slice());
    assert_eq!(rt; left.err.bytes(), b"".as_slice());
    Ok(())
}

#[test]
fn a_line_that_is_not_put_is_a_fault(rt: HostRuntime) -> Result<(), Fail> {
    let left = call(rt.alloc(), &RUN, b"t", b"", [0, 0, 0, 2])?;
    assert_eq!(rt; left.status, Status::WriteFault);
    assert_eq!(rt; left.err.bytes(), b"val".as_slice());
    Ok(())
}

/// The header of an image without statics, with so many bytes of code.
fn header(code: u8) -> [u8; 40] {
    [
        0x50, 0x59, 0x49, 0x4d, 1, 0, 0, 0, code, 0, 0, 0, 0, 0, 0, 0, 0, 0, 0, 0, 0, 0, 0, 0, 16,
        0, 0, 0, 0, 0, 0, 0, 0, 0, 1, 0, 0, 0, 0, 0,
    ]
}

/// An image of this code, with no debug rows.
fn image_of(alloc: Global, code: &[u8]) -> Result<Vec<u8>, Fail> {
    let mut bytes = header(code.len().min(8) as u8).to_vec(alloc)?;
    bytes.extend_from_slice(code)?;
    bytes.extend_from_slice(&[0; 16])?;
    Ok(bytes)
}

/// A word that is no instruction.
const NOTHING: [u8; 4] = [0; 4];

/// `addi x17, x0, 5` and `ecall`: the run ends since the heap is full.
const HEAP: [u8; 8] = [0x93, 0x08, 0x50, 0, 0x73, 0, 0, 0];

/// The words that run the image at `in` with so many instructions and the least sizes.
fn least(steps: &'static str) -> [&'static str; 8] {
    [
        "exec", "in", "--steps", steps, "--heap", "16", "--stack", "1024",
    ]
}

/// Runs an image, and compares what comes.
fn check_exec(
    rt: &impl Abort,
    alloc: Global,
    steps: &'static str,
    image: &[u8],
    status: Status,
    err: &[u8],
) -> Result<(), Fail> {
    let left = call(alloc, &least(steps), image, b"", [0, 0, 0, 0])?;
    assert_eq!(rt; left.err.bytes(), err);
    assert_eq!(rt; left.status, status);
    assert_eq!(rt; left.out.bytes(), b"".as_slice());
    Ok(())
}

#[test]
fn an_image_is_run(rt: HostRuntime) -> Result<(), Fail> {
    let alloc = rt.alloc();
    let nothing = image_of(alloc, &NOTHING)?;
    let heap = image_of(alloc, &HEAP)?;
    check_exec(&rt, alloc, "9", &nothing, Status::Trap, b"trap at 65536\n")?;
    check_exec(&rt, alloc, "9", &heap, Status::Heap, b"heap\n")?;
    check_exec(&rt, alloc, "1", &heap, Status::StepLimit, b"step limit\n")
}

#[test]
fn bytes_that_are_no_image_are_told(rt: HostRuntime) -> Result<(), Fail> {
    let alloc = rt.alloc();
    let mut image = image_of(alloc, &NOTHING)?;
    image.push(0)?;
    let trailing = b"bad image Trailing at 60\n";
    check_exec(&rt, alloc, "9", &image, Status::BadImage, trailing)?;
    image.truncate(59);
    let short = b"bad image Short at 59\n";
    check_exec(&rt, alloc, "9", &image, Status::BadImage, short)
}

#[test]
fn the_input_of_an_image_is_text(rt: HostRuntime) -> Result<(), Fail> {
    let image = image_of(rt.alloc(), &NOTHING)?;
    let left = call(rt.alloc(), &least("9"), &image, b"\xff", [0, 0, 0, 0])?;
    assert_eq!(rt; left.status, Status::InputNotText);
    assert_eq!(rt; left.err.bytes(), b"input not text at 0\n".as_slice());
    Ok(())
}

#[test]
fn an_image_is_listed(rt: HostRuntime) -> Result<(), Fail> {
    let image = image_of(rt.alloc(), &HEAP)?;
    let mut left = call(rt.alloc(), &["disasm", "in"], &image, b"x", [0, 0, 0, 0])?;
    assert_eq!(rt; left.status, Status::Done);
    assert_eq!(rt;
        left.out.bytes(),
        b"00010000: 00500893 addi x17, x0, 5\n00010004: 00000073 ecall\n".as_slice()
    );
    assert_eq!(rt; left.err.bytes(), b"".as_slice());
    let mut rest = [0u8; 2];
    assert_eq!(rt; left.input.take(&mut rest), Took::Bytes(1));
    Ok(())
}

#[test]
fn an_image_that_is_not_gotten_back_is_a_fault(rt: HostRuntime) -> Result<(), Fail> {
    let left = call(rt.alloc(), &RUN, ECHO, b"x", [3, 0, 0, 0])?;
    assert_eq!(rt; left.status, Status::ReadFault);
    assert_eq!(rt; left.err.bytes(), b"read fault\n".as_slice());
    assert_eq!(rt; left.files.look("out").is_some(), true);
    Ok(())
}
