// Functions: the form's own code is the first, at block 0, and each of its functions begins at a
// block of its own.
use crate::shown::text_of;
use std::test::*;

#[test]
fn an_optional_parameter_has_two_arms(rt: HostRuntime) -> Result<(), Fail> {
    let text = text_of(rt.alloc(), "(lambda (x &optional (y 1)) y)")?;
    let wanted = "b0 f0; Functional -> k0 $1; Return k0\n\
                  b1 f1; Argument -> k1; Bind k1; Supplied -> k2; If k2 => b2 b3\n\
                  b2; Argument -> k3 => b4\n\
                  b3; Constant -> k3 $1 => b4\n\
                  b4; Bind k3; Variable -> k4 $1; Return k4\n";
    assert_eq!(rt; text.as_str(), wanted);
    Ok(())
}

// A local function has a block of its name round its body.
#[test]
fn a_local_function_is_called(rt: HostRuntime) -> Result<(), Fail> {
    let text = text_of(rt.alloc(), "(labels ((f (x) x)) (f 1))")?;
    let wanted = "b0 f0; Constant -> k1 $3; Closed -> k2; CallKnown k2 k1 -> k0; Return k0\n\
                  b1 f1; Argument -> k3; Bind k3; Named at b2 -> k4 $1; Variable -> k4 $1; Close of n6 => b2\n\
                  b2; Return k4\n";
    assert_eq!(rt; text.as_str(), wanted);
    Ok(())
}

#[test]
fn a_local_function_is_taken(rt: HostRuntime) -> Result<(), Fail> {
    let text = text_of(rt.alloc(), "(labels ((f () 1)) (function f))")?;
    let wanted = "b0 f0; Functional -> k0 $2; Return k0\n\
                  b1 f1; Named at b2 -> k1 $1; Constant -> k1 $1; Close of n2 => b2\n\
                  b2; Return k1\n";
    assert_eq!(rt; text.as_str(), wanted);
    Ok(())
}

// The operator comes before the arguments.
#[test]
fn a_function_that_is_called_where_it_stands_is_known(rt: HostRuntime) -> Result<(), Fail> {
    let text = text_of(rt.alloc(), "(funcall (lambda (x) x) 1)")?;
    let wanted = "b0 f0; Closed -> k1 $2; Constant -> k2 $1; CallKnown k1 k2 -> k0; Return k0\n\
                  b1 f1; Argument -> k3; Bind k3; Variable -> k4 $1; Return k4\n";
    assert_eq!(rt; text.as_str(), wanted);
    Ok(())
}

#[test]
fn further_arguments_are_a_list(rt: HostRuntime) -> Result<(), Fail> {
    let text = text_of(rt.alloc(), "(lambda (&rest r) r)")?;
    let wanted = "b0 f0; Functional -> k0 $1; Return k0\n\
                  b1 f1; RestFrom -> k1; Bind k1; Variable -> k2 $1; Return k2\n";
    assert_eq!(rt; text.as_str(), wanted);
    Ok(())
}

#[test]
fn a_defined_function_is_set(rt: HostRuntime) -> Result<(), Fail> {
    let text = text_of(rt.alloc(), "(defun f () 1)")?;
    let wanted = "b0 f0; Functional -> k1 $4; SetFunction k1; Constant -> k0 $1; Return k0\n\
                  b1 f1; Named at b2 -> k2 $1; Constant -> k2 $1; Close of n4 => b2\n\
                  b2; Return k2\n";
    assert_eq!(rt; text.as_str(), wanted);
    Ok(())
}
