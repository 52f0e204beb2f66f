use crate::calls::{EXPAND, Leaves, RUN, call};
use lisp_base::base_names;
use pyc_cli::Status;
use std::alloc::Global;
use std::process::Abort;
use std::test::Fail;

/// A call ended with this line, and wrote and set nothing.
fn is_refused(rt: &impl Abort, left: &Leaves, line: &[u8]) {
    assert_eq!(rt; left.err.bytes(), line);
    assert_eq!(rt; left.status, Status::Refused);
    assert_eq!(rt; left.out.bytes(), b"".as_slice());
    assert_eq!(rt; left.files.look("out").is_some(), false);
}

/// A source is no program: both commands refuse it so.
fn refused(rt: &impl Abort, alloc: Global, source: &[u8], line: &[u8]) -> Result<(), Fail> {
    is_refused(rt, &call(alloc, &EXPAND, source, b"", [0, 0, 0, 0])?, line);
    is_refused(rt, &call(alloc, &RUN, source, b"", [0, 0, 0, 0])?, line);
    Ok(())
}

/// A source is no program: its expansion is refused so.
fn unexpanded(rt: &impl Abort, alloc: Global, source: &str, line: &str) -> Result<(), Fail> {
    let left = call(alloc, &EXPAND, source.as_bytes(), b"", [0, 0, 0, 0])?;
    is_refused(rt, &left, line.as_bytes());
    Ok(())
}

/// A source is a program that isn't built yet: only a run refuses it.
fn unbuilt(rt: &impl Abort, alloc: Global, source: &[u8], line: &[u8]) -> Result<(), Fail> {
    let left = call(alloc, &EXPAND, source, b"", [0, 0, 0, 0])?;
    assert_eq!(rt; left.status, Status::Done);
    is_refused(rt, &call(alloc, &RUN, source, b"", [0, 0, 0, 0])?, line);
    Ok(())
}

/// A text, then another one so many times, and a third one.
fn repeated(
    alloc: Global,
    first: &str,
    piece: &str,
    count: usize,
    last: &str,
) -> Result<String, Fail> {
    let mut text = String::from_str(alloc, first)?;
    for _ in 0..count {
        text.push_str(piece)?;
    }
    text.push_str(last)?;
    Ok(text)
}

#[test]
fn what_is_no_text_is_refused(rt: HostRuntime) -> Result<(), Fail> {
    let alloc = rt.alloc();
    refused(&rt, alloc, b"\xff", b"refused NotText at 0\n")?;
    let long = vec![in alloc; 32; 1_048_577]?;
    refused(&rt, alloc, &long, b"refused TooLong at 1048576\n")
}

#[test]
fn what_cannot_be_read_is_refused(rt: HostRuntime) -> Result<(), Fail> {
    let alloc = rt.alloc();
    refused(&rt, alloc, b")", b"refused Unbalanced at 0\n")?;
    refused(&rt, alloc, b"#\\spac", b"refused BadToken at 0\n")?;
    refused(&rt, alloc, b"1.5", b"refused Unsupported at 0\n")?;
    refused(&rt, alloc, b"(car", b"refused Eof at 4\n")?;
    let deep = repeated(alloc, "", "'", 201, "a")?;
    refused(&rt, alloc, deep.as_bytes(), b"refused TooDeep at 200\n")
}

#[test]
fn bad_forms_are_refused(rt: HostRuntime) -> Result<(), Fail> {
    let alloc = rt.alloc();
    refused(&rt, alloc, b"(if)", b"refused BadForm at 0\n")?;
    refused(&rt, alloc, b"t (list 1 (if))", b"refused BadForm at 10\n")?;
    refused(&rt, alloc, b"(the (values) 1)", b"refused BadType at 0\n")?;
    refused(
        &rt,
        alloc,
        b"(defmacro m () 1)",
        b"refused UnknownOperator at 0\n",
    )?;
    refused(
        &rt,
        alloc,
        b"(declaim (optimize (speed 3)))",
        b"refused BadPolicy at 0\n",
    )
}

#[test]
fn a_large_form_is_refused(rt: HostRuntime) -> Result<(), Fail> {
    let alloc = rt.alloc();
    let most = repeated(alloc, "(if t (progn", " 1", 3_996, ") 1)")?;
    unbuilt(&rt, alloc, most.as_bytes(), b"refused NotYet at 6\n")?;
    let nodes = repeated(alloc, "(if t (progn", " 1", 3_997, ") 1)")?;
    refused(&rt, alloc, nodes.as_bytes(), b"refused TooManyNodes at 0\n")
}

#[test]
fn a_deep_form_is_refused(rt: HostRuntime) -> Result<(), Fail> {
    let alloc = rt.alloc();
    let nested = repeated(alloc, "(+", " 1", 1_001, ")")?;
    refused(&rt, alloc, nested.as_bytes(), b"refused TooNested at 0\n")
}

/// A form of so many parts is as deep as forms may be: with one part more it is refused.
fn deepest(
    rt: &impl Abort,
    alloc: Global,
    operator: &str,
    part: &str,
    count: usize,
) -> Result<(), Fail> {
    let source = repeated(alloc, operator, part, count, ")")?;
    let left = call(alloc, &EXPAND, source.as_bytes(), b"", [0, 0, 0, 0])?;
    assert_eq!(rt; left.err.bytes(), b"".as_slice());
    assert_eq!(rt; left.status, Status::Done);
    let mut deeper = repeated(alloc, operator, part, count, part)?;
    deeper.push_str(")")?;
    unexpanded(rt, alloc, deeper.as_str(), "refused TooNested at 0\n")
}

#[test]
fn the_deepest_macros_are_expanded(rt: HostRuntime) -> Result<(), Fail> {
    let alloc = rt.alloc();
    deepest(&rt, alloc, "(and", " 1", 1_000)?;
    deepest(&rt, alloc, "(or", " 1", 500)?;
    deepest(&rt, alloc, "(cond", " (1 2)", 999)?;
    deepest(&rt, alloc, "(+", " 1", 1_000)
}

/// A function that closes over 60 variables, in so many copies.
fn closed(alloc: Global, copies: usize) -> Result<String, Fail> {
    let mut bindings = String::new(alloc);
    let mut names = String::new(alloc);
    for number in 1..61 {
        bindings.push_str(format!(in alloc; "(v{number} {number})")?.as_str())?;
        names.push_str(format!(in alloc; " v{number}")?.as_str())?;
    }
    let head = format!(in alloc; "(let ({bindings}) (flet ((g () (list{names})))")?;
    repeated(alloc, head.as_str(), " (g)", copies, "))")
}

#[test]
fn many_closed_copies_are_refused(rt: HostRuntime) -> Result<(), Fail> {
    let alloc = rt.alloc();
    unbuilt(
        &rt,
        alloc,
        closed(alloc, 50)?.as_bytes(),
        b"refused NotYet at 0\n",
    )?;
    refused(
        &rt,
        alloc,
        closed(alloc, 51)?.as_bytes(),
        b"refused TooManyClosed at 0\n",
    )
}

#[test]
fn a_large_program_is_refused(rt: HostRuntime) -> Result<(), Fail> {
    let alloc = rt.alloc();
    let form = repeated(alloc, "(if t (progn", " 1", 3_996, ") 1)\n")?;
    let source = repeated(alloc, "", form.as_str(), 100, "1")?;
    let line = "refused ProgramTooLarge at 800900\n";
    unexpanded(&rt, alloc, source.as_str(), line)
}

/// A source with so many symbols of its own.
fn symbols(alloc: Global, count: usize) -> Result<String, Fail> {
    let mut source = String::new(alloc);
    for number in 0..count {
        source.push_str(format!(in alloc; "s{number}\n")?.as_str())?;
    }
    Ok(source)
}

#[test]
fn many_symbols_are_refused(rt: HostRuntime) -> Result<(), Fail> {
    let alloc = rt.alloc();
    // Room for the symbols of the file, and for none of the prelude's own.
    let room = 65_536usize.saturating_sub(base_names().len());
    let mut source = symbols(alloc, room)?;
    let end = source.len();
    let line = "refused TooManySymbols at 0\n";
    unexpanded(&rt, alloc, source.as_str(), line)?;
    source.push_str("s")?;
    let line = format!(in alloc; "refused TooManySymbols at {end}\n")?;
    unexpanded(&rt, alloc, source.as_str(), line.as_str())
}

#[test]
fn what_is_not_built_yet_is_refused(rt: HostRuntime) -> Result<(), Fail> {
    let alloc = rt.alloc();
    unbuilt(&rt, alloc, b"(car nil)", b"refused NotYet at 0\n")?;
    unbuilt(&rt, alloc, b"t (car nil)", b"refused NotYet at 2\n")?;
    unbuilt(
        &rt,
        alloc,
        b"(evenp 2)",
        b"refused NotYet at prelude:EVENP\n",
    )
}
