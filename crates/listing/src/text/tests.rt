use super::*;
use std::test::Fail;

/// The bytes of words.
fn bytes(alloc: Global, words: &[u32]) -> Result<Vec<u8>, Fail> {
    let mut code = Vec::new(alloc);
    for word in words {
        code.extend_from_slice(&word.to_le_bytes())?;
    }
    Ok(code)
}

#[test]
fn each_format_has_its_line(rt: HostRuntime) -> Result<(), Fail> {
    let words = [
        0x0050_0893,
        0x0000_0073,
        0xffff_f0b7,
        0x0000_1517,
        0xfedf_f06f,
        0x0000_8067,
        0xfe20_8ee3,
        0xff81_3503,
        0x00a1_3423,
        0x03f3_1293,
        0x4013_5293,
        0xfff3_029b,
        0x41f3_529b,
        0x0273_02b3,
        0x0273_72bb,
        0x0000_0000,
    ];
    let code = bytes(rt.alloc(), &words)?;
    let text = listing(rt.alloc(), &code)?;
    let expected = "00010000: 00500893 addi x17, x0, 5
00010004: 00000073 ecall
00010008: fffff0b7 lui x1, 1048575
0001000c: 00001517 auipc x10, 1
00010010: fedff06f jal x0, -20
00010014: 00008067 jalr x0, x1, 0
00010018: fe208ee3 beq x1, x2, -4
0001001c: ff813503 ld x10, -8(x2)
00010020: 00a13423 sd x10, 8(x2)
00010024: 03f31293 slli x5, x6, 63
00010028: 40135293 srai x5, x6, 1
0001002c: fff3029b addiw x5, x6, -1
00010030: 41f3529b sraiw x5, x6, 31
00010034: 027302b3 mul x5, x6, x7
00010038: 027372bb remuw x5, x6, x7
0001003c: 00000000 unknown
";
    assert_eq!(rt; text.as_str(), expected);
    Ok(())
}

#[test]
fn bytes_after_the_last_word_have_no_line(rt: HostRuntime) -> Result<(), Fail> {
    let text = listing(rt.alloc(), &[0x73, 0, 0, 0, 0x73, 0, 0])?;
    assert_eq!(rt; text.as_str(), "00010000: 00000073 ecall\n");
    Ok(())
}
