ghost use Rattle.std.specs.Prelude.{◌/◌, ◌%◌, ◌==◌, if◌then◌else◌, None, slice_get};

use super::*;
use lisp_base::{Shape, SymKind, View};

#[test]
fn words_of_the_layout(rt: HostRuntime) {
    assert_eq!(rt; fixnum_word(5), Some(20));
    assert_eq!(rt; fixnum_word(-1), Some(u64::MAX - 3));
    assert_eq!(rt; fixnum_word(1 << 61), None);
    assert_eq!(rt; char_word(97), 24_834);
    assert_eq!(rt; header(ObjKind::Vector, 3), 774);
    assert_eq!(rt; header(ObjKind::Symbol, 4), 1_078);
    assert_eq!(rt; classify(u64::MAX - 3), WordKind::Fixnum(-1));
    assert_eq!(rt; classify(0x2000_0003), WordKind::List(0x2000_0000));
    assert_eq!(rt; classify(0xd800 * 256 + 2), WordKind::Other);
    assert_eq!(rt; classify(18), WordKind::NoFunction);
    let string = Header {
        kind: ObjKind::String,
        length: 3,
    };
    assert_eq!(rt; read_header(782), Some(string));
    assert_eq!(rt; object_words(string), 3);
    assert_eq!(rt; read_header(46), None);
}

/// Words from address 0 on.
#[derive(Drop)]
struct Cells<'a> {
    words: &'a [u64],
}

impl Words for Cells<'_> {
    ghost words = { λ c a. if a % 8 == 0 then slice_get c.words.now (a / 8) else None };

    fn word(&self, address: u64) -> Option<u64> {
        if address % 8 == 0 {
            self.words.get((address / 8) as usize).copied()
        } else {
            None
        }
    }
}

#[test]
fn shapes_of_words(rt: HostRuntime) {
    let words = [
        518,
        20,
        0x2000_0003, // a vector of 5 and NIL
        782,
        97 + (98 << 32),
        99, // a string abc
        1_078,
        10,
        18,
        31,
        4, // the keyword of that name
        7,
        55, // a cons of the vector and the keyword
        278,
        1 << 63, // an integer
        550,
        65_536, // a function that ends too early
    ];
    let cells = Cells { words: &words };
    let view = MemView::new(&cells);
    assert_eq!(rt; view.shape(7), Shape::Vector(2));
    assert_eq!(rt; view.element(7, 1), Some(0x2000_0003));
    assert_eq!(rt; view.element(7, 2), None);
    assert_eq!(rt; view.shape(0x2000_0003), Shape::Sym(SymKind::Plain, 3));
    assert_eq!(rt; view.letter(0x2000_0003, 1), Some(73));
    assert_eq!(rt; view.shape(31), Shape::Str(3));
    assert_eq!(rt; view.letter(31, 1), Some(98));
    assert_eq!(rt; view.shape(55), Shape::Sym(SymKind::Keyword, 3));
    assert_eq!(rt; view.letter(55, 2), Some(99));
    assert_eq!(rt; view.shape(91), Shape::Cons(7, 55));
    assert_eq!(rt; view.shape(111), Shape::Int(-(1 << 63)));
    assert_eq!(rt; view.shape(121), Shape::Bad);
    assert_eq!(rt; view.shape(3), Shape::Bad);
    assert_eq!(rt; view.shape(10), Shape::Bad);
}
