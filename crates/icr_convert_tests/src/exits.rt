// Forms that are left. Each form's values go to continuation 0, which the form's own code returns.
use crate::shown::text_of;
use std::test::*;

#[test]
fn an_exit_names_the_entry_of_its_block(rt: HostRuntime) -> Result<(), Fail> {
    let text = text_of(rt.alloc(), "(block b (return-from b 1))")?;
    let wanted =
        "b0 f0; Named at b1 -> k0 $1; Constant -> k1 $2; ReturnFrom k1 of n0; Close of n0 => b1\n\
                  b1; Return k0\n";
    assert_eq!(rt; text.as_str(), wanted);
    Ok(())
}

#[test]
fn a_tag_begins_a_block(rt: HostRuntime) -> Result<(), Fail> {
    let text = text_of(rt.alloc(), "(tagbody 1 (go 1))")?;
    let wanted = "b0 f0; Tags at b1 $1 => b1\n\
                  b1; Go of n0 $1; Close of n0; Constant -> k0; Return k0\n";
    assert_eq!(rt; text.as_str(), wanted);
    Ok(())
}

#[test]
fn a_cleanup_form_begins_a_block(rt: HostRuntime) -> Result<(), Fail> {
    let text = text_of(rt.alloc(), "(unwind-protect 1 t)")?;
    let wanted = "b0 f0; Guarded at b1 $1; Constant -> k1 $1; Guard k1 of n0\n\
                  b1; Constant $1; Resume of n0 -> k0; Return k0\n";
    assert_eq!(rt; text.as_str(), wanted);
    Ok(())
}

#[test]
fn a_throw_takes_its_tag_and_its_values(rt: HostRuntime) -> Result<(), Fail> {
    let text = text_of(rt.alloc(), "(catch 1 (throw 1 t))")?;
    let wanted =
        "b0 f0; Constant -> k1 $2; Catching k1 at b1 -> k0; Constant -> k2 $2; Constant -> k3 $1; Throw k2 k3; Close of n1 => b1\n\
                  b1; Return k0\n";
    assert_eq!(rt; text.as_str(), wanted);
    Ok(())
}
