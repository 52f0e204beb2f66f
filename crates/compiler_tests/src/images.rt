use compiler::{CompileFault, compile};
use debug_info::{Site, SitePlace};
use expansion::ExpandKind;
use lisp_base::Place;
use lisp_reader::ReadKind;
use std::alloc::Global;
use std::test::*;

// The words were written out by hand from the RISC-V manual: x10 becomes x19; a call with the number 3 in x17.
#[test]
fn echo(rt: HostRuntime) -> Result<(), Fail> {
    let alloc = rt.alloc();
    let bytes = compile(alloc, b"(write-char (read-char nil nil))")
        .ok()
        .ok_or("the source is a program")?;
    let image = image::read(alloc, &bytes)
        .ok()
        .ok_or("the bytes are an image")?;
    assert_eq!(rt; image.entry, 65_536);
    assert_eq!(rt; image.code.len(), 80);
    assert!(rt; image.code.as_slice().starts_with(&[0x13, 0x85, 0x09, 0x00]));
    assert!(rt;
        image
            .code
            .as_slice()
            .ends_with(&[0x93, 0x08, 0x30, 0x00, 0x73, 0, 0, 0])
    );
    assert_eq!(rt; image.statics.len(), 136);
    let site = Site {
        place: SitePlace::File { offset: 0, tail: 0 },
        text: Some(0),
    };
    assert!(rt; image.debug.place_of(65_536 + 4 * 13).is_none());
    assert_eq!(rt; image.debug.place_of(65_536 + 4 * 14), Some(site));
    assert_eq!(rt; image.debug.text(0).ok_or("there is a text")?, "CHARACTER");
    Ok(())
}

#[test]
fn macros(rt: HostRuntime) {
    let source = b"(when (and t #\\a) (write-char #\\b) nil)";
    let compiled = compile(rt.alloc(), source).is_ok();
    assert!(rt; compiled);
}

fn unread(alloc: Global, source: &[u8]) -> Option<(ReadKind, u32)> {
    match compile(alloc, source) {
        Err(CompileFault::Read { kind, offset }) => Some((kind, offset)),
        _ => None,
    }
}

fn unexpanded(alloc: Global, source: &[u8]) -> Option<(ExpandKind, Place)> {
    match compile(alloc, source) {
        Err(CompileFault::Expand { kind, place, .. }) => Some((kind, place)),
        _ => None,
    }
}

fn unbuilt(alloc: Global, source: &[u8]) -> Option<Place> {
    match compile(alloc, source) {
        Err(CompileFault::NotYet { place, .. }) => Some(place),
        _ => None,
    }
}

fn at(offset: u32) -> Place {
    Place::File { offset, tail: 0 }
}

#[test]
fn refusals(rt: HostRuntime) {
    let alloc = rt.alloc();
    assert_eq!(rt; unread(alloc, b"t )"), Some((ReadKind::Unbalanced, 2)));
    assert_eq!(rt;
        unexpanded(alloc, b"t (if)"),
        Some((ExpandKind::BadForm, at(2)))
    );
    assert_eq!(rt; unbuilt(alloc, b"t (progn t (car nil))"), Some(at(11)));
}

// A function of the prelude is unbuilt before all forms of the file.
#[test]
fn prelude_first(rt: HostRuntime) {
    let place = unbuilt(rt.alloc(), b"(car nil) (reverse nil)");
    assert!(rt; matches!(place, Some(Place::Prelude { .. })));
}
