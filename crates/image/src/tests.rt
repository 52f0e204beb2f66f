use super::*;
use std::alloc::Global;
use std::test::*;

/// The least image: code 00 00 00 00, no statics, four empty tables, the entry at the code's start.
const LEAST: [u8; 60] = [
    0x50, 0x59, 0x49, 0x4D, 1, 0, 0, 0, 4, 0, 0, 0, 0, 0, 0, 0, 0, 0, 0, 0, 0, 0, 0, 0, 16, 0, 0,
    0, 0, 0, 0, 0, 0, 0, 1, 0, 0, 0, 0, 0, 0, 0, 0, 0, 0, 0, 0, 0, 0, 0, 0, 0, 0, 0, 0, 0, 0, 0, 0,
    0,
];

fn is_fault(alloc: Global, bytes: &[u8], at: u64, wanted: ImageKind) -> bool {
    match read(alloc, bytes) {
        Err(ImageFault::Bad { offset, kind }) => offset == at && kind == wanted,
        _ => false,
    }
}

// The least image with one byte changed, and bytes behind it.
fn changed(alloc: Global, at: usize, byte: u8, more: &[u8]) -> Result<Vec<u8>, Fail> {
    let mut bytes = LEAST.to_vec(alloc)?;
    if let Some(place) = bytes.get_mut(at) {
        *place = byte;
    }
    bytes.extend_from_slice(more)?;
    Ok(bytes)
}

#[test]
fn least_image(rt: HostRuntime) -> Result<(), Fail> {
    let image = read(rt.alloc(), &LEAST)
        .ok()
        .ok_or("the bytes are an image")?;
    assert_eq!(rt; image.version, 1);
    assert_eq!(rt; image.code.as_slice(), [0, 0, 0, 0].as_slice());
    assert_eq!(rt; image.statics.len(), 0);
    assert_eq!(rt; image.entry, 65_536);
    assert!(rt; image.debug.place_of(65_536).is_none());
    assert!(rt; image.debug.text(0).is_none());
    let bytes = write(rt.alloc(), &image)?;
    assert_eq!(rt; bytes.as_slice(), LEAST.as_slice());
    Ok(())
}

#[test]
fn faults_of_fields(rt: HostRuntime) -> Result<(), Fail> {
    let alloc = rt.alloc();
    assert!(rt; is_fault(alloc, &LEAST[..59], 59, ImageKind::Short));
    assert!(rt; is_fault(alloc, &LEAST[..3], 3, ImageKind::Short));
    assert!(rt; is_fault(alloc, &changed(alloc, 0, 0, &[])?, 0, ImageKind::Magic));
    assert!(rt; is_fault(alloc, &changed(alloc, 4, 2, &[])?, 4, ImageKind::Version));
    assert!(rt; is_fault(alloc, &changed(alloc, 8, 0, &[])?, 8, ImageKind::CodeLength));
    assert!(rt; is_fault(alloc, &changed(alloc, 8, 6, &[])?, 8, ImageKind::CodeLength));
    assert!(rt;
        is_fault(
            alloc,
            &changed(alloc, 16, 4, &[])?,
            16,
            ImageKind::StaticsLength
        )
    );
    assert!(rt;
        is_fault(
            alloc,
            &changed(alloc, 29, 1, &[])?,
            24,
            ImageKind::DebugLength
        )
    );
    assert!(rt; is_fault(alloc, &changed(alloc, 32, 4, &[])?, 32, ImageKind::Entry));
    assert!(rt;
        is_fault(
            alloc,
            &changed(alloc, 0, 0x50, &[0])?,
            60,
            ImageKind::Trailing
        )
    );
    Ok(())
}

/// A debug section with the text `a`, and two sites: one of the file, one of the prelude.
const SECTION: [u8; 69] = [
    1, 0, 0, 0, 1, 0, 0, 0, 97, 2, 0, 0, 0, 0, 0, 1, 0, 0, 0, 0, 0, 7, 0, 0, 0, 9, 0, 0, 0, 0, 0,
    0, 0, 255, 255, 255, 255, 4, 0, 1, 0, 0, 0, 0, 0, 0, 0, 0, 0, 0, 0, 0, 0, 1, 0, 0, 0, 0, 0, 0,
    0, 0, 0, 0, 0, 0, 0, 0, 0,
];

// The image with this section, one byte of it changed, cut to so many bytes.
fn with_section(alloc: Global, at: usize, byte: u8, size: usize) -> Result<Vec<u8>, Fail> {
    let mut bytes = LEAST[..44].to_vec(alloc)?;
    if let (Some(place), Ok(size)) = (bytes.get_mut(24), u8::try_from(size)) {
        *place = size;
    }
    for (index, old) in SECTION.iter().enumerate() {
        if index < size {
            bytes.push(if index == at { byte } else { *old })?;
        }
    }
    Ok(bytes)
}

#[test]
fn debug_tables(rt: HostRuntime) -> Result<(), Fail> {
    use debug_info::SitePlace;
    let alloc = rt.alloc();
    let bytes = with_section(alloc, 0, 1, 69)?;
    let image = read(alloc, &bytes).ok().ok_or("the bytes are an image")?;
    assert_eq!(rt; image.debug.text(0), Some("a"));
    assert!(rt; image.debug.place_of(65_535).is_none());
    let first = image.debug.place_of(65_539).ok_or("the first site")?;
    assert_eq!(rt; first.place, SitePlace::File { offset: 7, tail: 9 });
    assert_eq!(rt; first.text, None);
    let second = image.debug.place_of(70_000).ok_or("the second site")?;
    assert_eq!(rt; second.place, SitePlace::Prelude { text: 0 });
    assert_eq!(rt; second.text, Some(0));
    let again = write(alloc, &image)?;
    assert_eq!(rt; again.as_slice(), bytes.as_slice());
    Ok(())
}

#[test]
fn faults_of_debug_tables(rt: HostRuntime) -> Result<(), Fail> {
    let alloc = rt.alloc();
    // The second pc isn't above the first.
    assert!(rt;
        is_fault(
            alloc,
            &with_section(alloc, 37, 0, 69)?,
            44 + 37,
            ImageKind::Debug
        )
    );
    // A text that is no UTF-8, and a text that passes the section's end.
    assert!(rt;
        is_fault(
            alloc,
            &with_section(alloc, 8, 255, 69)?,
            44 + 4,
            ImageKind::Debug
        )
    );
    assert!(rt;
        is_fault(
            alloc,
            &with_section(alloc, 5, 1, 69)?,
            44 + 4,
            ImageKind::Debug
        )
    );
    // A source that is neither, a tail in the prelude, a number that is no text's.
    assert!(rt;
        is_fault(
            alloc,
            &with_section(alloc, 29, 2, 69)?,
            44 + 13,
            ImageKind::Debug
        )
    );
    assert!(rt;
        is_fault(
            alloc,
            &with_section(alloc, 49, 1, 69)?,
            44 + 37,
            ImageKind::Debug
        )
    );
    assert!(rt;
        is_fault(
            alloc,
            &with_section(alloc, 57, 1, 69)?,
            44 + 37,
            ImageKind::Debug
        )
    );
    // A count that is cut, a row that is cut, and a count of one less: then the second site's bytes
    // are a count of functions, a function, and a part of one.
    assert!(rt;
        is_fault(
            alloc,
            &with_section(alloc, 0, 1, 67)?,
            44 + 65,
            ImageKind::Debug
        )
    );
    assert!(rt;
        is_fault(
            alloc,
            &with_section(alloc, 0, 1, 60)?,
            44 + 37,
            ImageKind::Debug
        )
    );
    assert!(rt;
        is_fault(
            alloc,
            &with_section(alloc, 9, 1, 69)?,
            44 + 57,
            ImageKind::Debug
        )
    );
    // A byte behind the last table.
    let mut more = with_section(alloc, 0, 1, 69)?;
    more.push(0)?;
    if let Some(size) = more.get_mut(24) {
        *size = 70;
    }
    assert!(rt; is_fault(alloc, &more, 44 + 69, ImageKind::Debug));
    Ok(())
}

/// Each text that is cut short is Short at its end, whichever field or part the cut leaves incomplete.
#[test]
fn each_truncation(rt: HostRuntime) -> Result<(), Fail> {
    let alloc = rt.alloc();
    let bytes = with_section(alloc, 0, 1, 69)?;
    assert!(rt; read(alloc, &bytes).is_ok());
    for size in 0..bytes.len() {
        assert!(rt;
            is_fault(alloc, &bytes[..size], size as u64, ImageKind::Short),
            "{size}"
        );
    }
    Ok(())
}
