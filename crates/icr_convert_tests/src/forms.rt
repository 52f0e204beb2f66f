// Forms without exits. Each form's values go to continuation 0, which the form's own code returns.
use crate::shown::{graphs_of, tested, text_of};
use std::test::*;

const THE: &str = "(the (or symbol cons) 1)";

#[test]
fn the_true_arm_of_an_if_comes_first(rt: HostRuntime) -> Result<(), Fail> {
    let text = text_of(rt.alloc(), "(if t 1 (progn))")?;
    let wanted = "b0 f0; Constant -> k1 $2; If k1 => b1 b2\n\
                  b1; Constant -> k0 $1 => b3\n\
                  b2; Constant -> k0 $1 => b3\n\
                  b3; Return k0\n";
    assert_eq!(rt; text.as_str(), wanted);
    Ok(())
}

#[test]
fn operands_are_taken_from_left_to_right(rt: HostRuntime) -> Result<(), Fail> {
    let text = text_of(rt.alloc(), "(cons 1 t)")?;
    let wanted = "b0 f0; Constant -> k1 $2; Constant -> k2 $1; Primitive k1 k2 -> k0; Return k0\n";
    assert_eq!(rt; text.as_str(), wanted);
    Ok(())
}

#[test]
fn the_type_of_a_form_is_tested(rt: HostRuntime) -> Result<(), Fail> {
    let text = text_of(rt.alloc(), THE)?;
    let wanted = "b0 f0; Constant -> k1 $2; Pass k1 -> k0 $3; Return k0\n";
    assert_eq!(rt; text.as_str(), wanted);
    Ok(())
}

#[test]
fn only_the_type_of_a_form_is_asserted(rt: HostRuntime) -> Result<(), Fail> {
    let graphs = graphs_of(rt.alloc(), THE)?;
    let graph = graphs.first();
    assert_eq!(rt; graph.and_then(|graph| tested(graph, 1)), Some(1));
    assert_eq!(rt; graph.and_then(|graph| tested(graph, 0)), Some(0));
    Ok(())
}

#[test]
fn the_extent_of_a_special_variable_ends(rt: HostRuntime) -> Result<(), Fail> {
    let text = text_of(rt.alloc(), "(let ((x 1) (s 2)) (declare (special s)) x)")?;
    let wanted =
        "b0 f0; Constant -> k1 $2; Constant -> k2 $1; Bind k1; Special k2; Variable -> k0 $1; Close of n3; Return k0\n";
    assert_eq!(rt; text.as_str(), wanted);
    Ok(())
}

#[test]
fn the_values_of_operands_are_kept(rt: HostRuntime) -> Result<(), Fail> {
    let text = text_of(rt.alloc(), "(multiple-value-call f 1 t)")?;
    let wanted =
        "b0 f0; Global -> k1 $2; Constant -> k2 $1; Keep k2; Constant -> k3 $1; Keep k3; Release of n4 -> k5; Release of n2 -> k4; MvCall k1 k4 k5 -> k0; Return k0\n";
    assert_eq!(rt; text.as_str(), wanted);
    Ok(())
}

#[test]
fn the_values_of_a_first_form_are_kept(rt: HostRuntime) -> Result<(), Fail> {
    let text = text_of(rt.alloc(), "(multiple-value-prog1 1 t)")?;
    let wanted = "b0 f0; Constant -> k1 $2; Keep k1; Constant $1; Release of n1 -> k0; Return k0\n";
    assert_eq!(rt; text.as_str(), wanted);
    Ok(())
}
