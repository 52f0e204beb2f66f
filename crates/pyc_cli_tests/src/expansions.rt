use crate::calls::{EXPAND, call};
use outside_io::{Source, Took};
use pyc_cli::Status;
use std::alloc::Global;
use std::process::Abort;
use std::test::Fail;

/// A source expands to these lines.
fn expands(rt: &impl Abort, alloc: Global, source: &[u8], lines: &[u8]) -> Result<(), Fail> {
    let left = call(alloc, &EXPAND, source, b"", [0, 0, 0, 0])?;
    assert_eq!(rt; left.err.bytes(), b"".as_slice());
    assert_eq!(rt; left.status, Status::Done);
    assert_eq!(rt; left.out.bytes(), lines);
    assert_eq!(rt; left.files.look("out").is_some(), false);
    Ok(())
}

#[test]
fn each_form_has_a_line(rt: HostRuntime) -> Result<(), Fail> {
    let alloc = rt.alloc();
    expands(&rt, alloc, b"", b"")?;
    expands(&rt, alloc, b"(progn) ; no form at all", b"")?;
    expands(
        &rt,
        alloc,
        b"1 (progn 2 x)",
        b"(quote 1)\n(quote 2)\n(global X)\n",
    )
}

#[test]
fn conditions_and_constants_are_shown(rt: HostRuntime) -> Result<(), Fail> {
    let alloc = rt.alloc();
    expands(
        &rt,
        alloc,
        b"(if t 1)",
        b"(if (quote T) (quote 1) (quote NIL))\n",
    )?;
    expands(
        &rt,
        alloc,
        b"'(a \"b\" #\\c :d)",
        b"(quote (A \"b\" #\\c :D))\n",
    )
}

#[test]
fn variables_are_numbered_and_tested(rt: HostRuntime) -> Result<(), Fail> {
    let alloc = rt.alloc();
    expands(
        &rt,
        alloc,
        b"(let ((x 1)) x)",
        b"(let ((X.1 (quote 1))) X.1)\n",
    )?;
    expands(
        &rt,
        alloc,
        b"(let ((x 1)) (declare (fixnum x)) (setq x 2))",
        b"(let ((X.1 (the FIXNUM (quote 1)))) (set X.1 (the FIXNUM (quote 2))))\n",
    )
}

#[test]
fn functions_and_calls_are_shown(rt: HostRuntime) -> Result<(), Fail> {
    let alloc = rt.alloc();
    expands(
        &rt,
        alloc,
        b"(defun f (x) (f x))",
        b"(progn (setfun F (labels ((F.1 (lambda (X.2) (block F.3 (call F.1 X.2))))) (fun F.1))) (quote F))\n",
    )?;
    expands(
        &rt,
        alloc,
        b"(car x) (evenp 2)",
        b"(CAR (global X))\n(callglobal EVENP (quote 2))\n",
    )
}

const EVENS: &[u8] = b"(defun evens (n) (if (= n 0) 0 (+ (if (evenp n) 1 0) (evens (- n 1)))))";

const EVENS_LINE: &[u8] =
    b"(progn (setfun EVENS (labels ((EVENS.1 (lambda (N.2) (block EVENS.3 (if (= N.2 (quote 0)) (quote 0) (+ (if (callglobal EVENP N.2) (quote 1) (quote 0)) (call EVENS.1 (- N.2 (quote 1))))))))) (fun EVENS.1))) (quote EVENS))\n";

#[test]
fn evens_are_shown(rt: HostRuntime) -> Result<(), Fail> {
    expands(&rt, rt.alloc(), EVENS, EVENS_LINE)
}

#[test]
fn what_cannot_be_gotten_or_written_is_a_fault(rt: HostRuntime) -> Result<(), Fail> {
    let left = call(rt.alloc(), &EXPAND, b"t", b"", [1, 0, 0, 0])?;
    assert_eq!(rt; left.status, Status::ReadFault);
    assert_eq!(rt; left.err.bytes(), b"read fault\n".as_slice());
    assert_eq!(rt; left.out.bytes(), b"".as_slice());
    let left = call(rt.alloc(), &EXPAND, b"t", b"", [0, 0, 2, 0])?;
    assert_eq!(rt; left.status, Status::WriteFault);
    assert_eq!(rt; left.out.bytes(), b"(q".as_slice());
    assert_eq!(rt; left.err.bytes(), b"".as_slice());
    Ok(())
}

#[test]
fn the_input_stays(rt: HostRuntime) -> Result<(), Fail> {
    let mut left = call(rt.alloc(), &EXPAND, b"t", b"x", [0, 1, 0, 0])?;
    assert_eq!(rt; left.status, Status::Done);
    let mut rest = [0u8; 2];
    assert_eq!(rt; left.input.take(&mut rest), Took::Failed);
    assert_eq!(rt; left.input.take(&mut rest), Took::Bytes(1));
    Ok(())
}
