use debug_info::{Debug, SitePlace, SiteRow};
use ending_texts::{error_text, value_text};
use image::read;
use rv_machine::machine::Machine;
use rv_machine::sizes::Sizes;
use std::alloc::Global;
use std::test::Fail;

/// The objects of the statics, from 0x20000000 on.
const STATICS: [u64; 33] = [
    // the cons of NIL
    0x2000_0003,
    0x2000_0003,
    // 0x20000010: the symbol NIL
    1078,
    0x2000_0003,
    18,
    0x2000_0067,
    0,
    // 0x20000038: the symbol T
    1078,
    0x2000_003F,
    18,
    0x2000_007F,
    0,
    // 0x20000060: the string "NIL"
    3 * 256 + 14,
    0x49_0000_004E,
    0x4C,
    // 0x20000078: the string "T"
    256 + 14,
    0x54,
    // 0x20000088: a keyword of that name
    1078,
    0x2000_008F,
    18,
    0x2000_007F,
    4,
    // 0x200000B0: an uninterned symbol
    1078,
    10,
    18,
    0x2000_00DF,
    8,
    // 0x200000D8: a string of an é and of a number that is no character's
    2 * 256 + 14,
    0xD800_0000_00E9,
    // 0x200000E8: an integer, and behind it a cons of the keyword and the string "T"
    256 + 22,
    0x7FFF_FFFF_FFFF_FFFF,
    0x2000_008F,
    0x2000_007F,
];

/// The image of these statics, with one instruction: magic, version, the lengths of code, statics and debug, and the entry;
/// then code, statics and four empty tables.
fn machine(alloc: Global) -> Result<Machine, Fail> {
    let mut bytes = b"PYIM\x01\0\0\0".to_vec(alloc)?;
    for field in [4u64, 264, 16, 65_536] {
        bytes.extend_from_slice(&field.to_le_bytes())?;
    }
    bytes.extend_from_slice(&[0x73, 0, 0, 0])?;
    for word in STATICS {
        bytes.extend_from_slice(&word.to_le_bytes())?;
    }
    bytes.extend_from_slice(&[0; 16])?;
    let image = read(alloc, &bytes).ok().ok_or("the bytes are an image")?;
    let sizes = Sizes::new(16, 1024).ok_or("the sizes are lawful")?;
    Ok(Machine::load(alloc, &image, sizes)?)
}

/// Three sites: at 65,536 in the file at 0, at 65,544 in the third element of the list at 7, at 65,552 in the prelude.
fn debug(alloc: Global) -> Result<Debug, Fail> {
    let mut texts = Vec::new(alloc);
    for text in ["CHARACTER", "+", "LENGTH"] {
        texts
            .push(String::from_str(alloc, text)?)
            .ok()
            .ok_or("memory")?;
    }
    let mut sites = Vec::new(alloc);
    sites.push(SiteRow {
        pc: 65_536,
        place: SitePlace::File { offset: 0, tail: 0 },
        text: Some(0),
    })?;
    sites.push(SiteRow {
        pc: 65_544,
        place: SitePlace::File { offset: 7, tail: 2 },
        text: Some(1),
    })?;
    sites.push(SiteRow {
        pc: 65_552,
        place: SitePlace::Prelude { text: 2 },
        text: None,
    })?;
    let debug = Debug::checked(texts, sites, Vec::new(alloc), Vec::new(alloc));
    Ok(debug.ok_or("the tables keep the rules")?)
}

#[test]
fn values(rt: HostRuntime) -> Result<(), Fail> {
    let machine = machine(rt.alloc())?;
    for (word, text) in [
        (0x2000_0003, "NIL"),
        (0x2000_00B7, "#:é?"),
        (0x7F02, "#\\Rubout"),
        (0xFFFF_FFFF_FFFF_FFEC, "-5"),
        (0x2000_00EF, "9223372036854775807"),
        (0x2000_00FB, "(:T . \"T\")"),
        (0x4000_0007, "#<BAD>"),
    ] {
        let shown = value_text(rt.alloc(), &machine, word)?;
        assert_eq!(rt; shown.as_str(), text, "{word}");
    }
    Ok(())
}

#[test]
fn errors(rt: HostRuntime) -> Result<(), Fail> {
    let machine = machine(rt.alloc())?;
    let debug = debug(rt.alloc())?;
    for (kind, a, b, pc, text) in [
        (1, 0x2000_0003, 0, 65_540, "TYPE-ERROR NIL CHARACTER form=0"),
        (2, 12, 12, 65_548, "TYPE-ERROR 3 (INTEGER 0 2) form=7+2"),
        (2, 12, 0, 65_548, "TYPE-ERROR 3 NIL form=7+2"),
        (
            2,
            12,
            0x2000_00EF,
            65_548,
            "TYPE-ERROR 3 (INTEGER 0 9223372036854775806) form=7+2",
        ),
        (
            3,
            4,
            0xFFFF_FFFF_FFFF_FFEC,
            65_544,
            "INTEGER-OVERFLOW + 1 -5 form=7+2",
        ),
        (
            4,
            4,
            0,
            70_000,
            "DIVISION-BY-ZERO none 1 0 form=prelude:LENGTH",
        ),
        (5, 0x2000_003F, 0, 65_535, "UNBOUND-VARIABLE T form=none"),
        (6, 0x2000_003F, 0, 65_536, "UNDEFINED-FUNCTION T form=0"),
        (7, 0x2000_0003, 8, 65_536, "PROGRAM-ERROR NIL 2 form=0"),
        (8, 0x2000_008F, 0, 65_536, "CONTROL-ERROR :T form=0"),
        (9, 0, 0, 65_536, "END-OF-FILE form=0"),
        (
            10,
            0x4102,
            0x2000_0003,
            65_536,
            "SIMPLE-ERROR #\\A NIL form=0",
        ),
    ] {
        let shown = error_text(rt.alloc(), &machine, &debug, kind, a, b, 0, pc)?;
        assert_eq!(rt; shown.as_str(), text);
    }
    Ok(())
}
