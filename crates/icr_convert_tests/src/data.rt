// Variables, operations and calls. Each form's values go to continuation 0, which the form's own
// code returns.
use crate::shown::text_of;
use std::test::*;

#[test]
fn a_variable_is_set(rt: HostRuntime) -> Result<(), Fail> {
    let text = text_of(rt.alloc(), "(let ((x 1)) (setq x 2))")?;
    let wanted = "b0 f0; Constant -> k1 $2; Bind k1; Constant -> k2 $2; Set k2 -> k0; Return k0\n";
    assert_eq!(rt; text.as_str(), wanted);
    Ok(())
}

#[test]
fn a_global_variable_is_read(rt: HostRuntime) -> Result<(), Fail> {
    let text = text_of(rt.alloc(), "g")?;
    assert_eq!(rt; text.as_str(), "b0 f0; Global -> k0 $1; Return k0\n");
    Ok(())
}

#[test]
fn a_global_variable_is_set(rt: HostRuntime) -> Result<(), Fail> {
    let text = text_of(rt.alloc(), "(setq g 1)")?;
    let wanted = "b0 f0; Constant -> k1 $2; SetGlobal k1 -> k0; Return k0\n";
    assert_eq!(rt; text.as_str(), wanted);
    Ok(())
}

#[test]
fn a_type_is_asked_for(rt: HostRuntime) -> Result<(), Fail> {
    let text = text_of(rt.alloc(), "(typep 1 '(or symbol cons))")?;
    let wanted = "b0 f0; Constant -> k1 $2; Is k1 -> k0 $3; Return k0\n";
    assert_eq!(rt; text.as_str(), wanted);
    Ok(())
}

#[test]
fn values_are_taken_together(rt: HostRuntime) -> Result<(), Fail> {
    let text = text_of(rt.alloc(), "(values 1 t)")?;
    let wanted = "b0 f0; Constant -> k1 $2; Constant -> k2 $1; Values k1 k2 -> k0; Return k0\n";
    assert_eq!(rt; text.as_str(), wanted);
    Ok(())
}

#[test]
fn a_global_function_is_called(rt: HostRuntime) -> Result<(), Fail> {
    let text = text_of(rt.alloc(), "(f 1)")?;
    let wanted = "b0 f0; Constant -> k1 $2; CallGlobal k1 -> k0; Return k0\n";
    assert_eq!(rt; text.as_str(), wanted);
    Ok(())
}

#[test]
fn a_value_is_called(rt: HostRuntime) -> Result<(), Fail> {
    let text = text_of(rt.alloc(), "(funcall g 1)")?;
    let wanted = "b0 f0; Global -> k1 $2; Constant -> k2 $1; Funcall k1 k2 -> k0; Return k0\n";
    assert_eq!(rt; text.as_str(), wanted);
    Ok(())
}

#[test]
fn a_value_is_called_with_a_list(rt: HostRuntime) -> Result<(), Fail> {
    let text = text_of(rt.alloc(), "(apply g 1 nil)")?;
    let wanted =
        "b0 f0; Global -> k1 $2; Constant -> k2 $1; Constant -> k3 $1; Apply k1 k2 k3 -> k0; Return k0\n";
    assert_eq!(rt; text.as_str(), wanted);
    Ok(())
}

#[test]
fn a_global_function_is_taken(rt: HostRuntime) -> Result<(), Fail> {
    let text = text_of(rt.alloc(), "(function f)")?;
    assert_eq!(rt;
        text.as_str(),
        "b0 f0; GlobalFunction -> k0 $1; Return k0\n"
    );
    Ok(())
}
