use super::*;
use std::test::*;

// The name that a line begins to define.
fn defined(line: &str) -> Option<&str> {
    line.strip_prefix("(defun ")?.split(' ').next()
}

#[test]
fn names_stand_once(rt: HostRuntime) -> Result<(), Fail> {
    let names = prelude_names();
    for (i, name) in names.iter().enumerate() {
        assert_eq!(rt; names.iter().position(|other| other == name), Some(i));
    }
    Ok(())
}

#[test]
fn names_are_defined_once(rt: HostRuntime) -> Result<(), Fail> {
    let mut names = Vec::new(rt.alloc());
    for line in prelude_text().lines() {
        if let Some(name) = defined(line) {
            names.push(name)?;
        }
    }
    assert_eq!(rt; names.len(), prelude_names().len());
    for name in prelude_names() {
        assert!(rt; names.iter().any(|other| other.eq_ignore_ascii_case(name)));
    }
    Ok(())
}

#[test]
fn text_is_whole_ascii_lines(rt: HostRuntime) -> Result<(), Fail> {
    assert!(rt; prelude_text().is_ascii());
    assert!(rt; prelude_text().ends_with('\n'));
    Ok(())
}
