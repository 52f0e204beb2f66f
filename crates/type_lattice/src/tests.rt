// Sets compared with one another: the questions that are asked of types, and laws over every two of
// some twenty sets.
use crate::kinds::Kinds;
use crate::made::{GREATEST, LEAST, one_character, one_symbol};
use crate::named::of_name;
use crate::ranges::Ranges;
use crate::ty::Ty;
use lisp_base::TypeName;
use std::alloc::{AllocError, Global};
use std::test::Fail;

// One plain symbol.
fn symbol_set(alloc: Global, number: u32) -> Result<Ty, AllocError> {
    let one = one_symbol(alloc, number)?;
    Ok(Ty::of_symbols(alloc, one, Ranges::nothing(alloc)))
}

// One keyword.
fn keyword_set(alloc: Global, number: u32) -> Result<Ty, AllocError> {
    let one = one_symbol(alloc, number)?;
    Ok(Ty::of_symbols(alloc, Ranges::nothing(alloc), one))
}

#[tactic(auto, unfolding(lisp_base::specs::Lawful::is_character_value))]
fn letter_set(alloc: Global) -> Result<Ty, AllocError> {
    let first = one_character(alloc, 0)?;
    Ok(Ty::of_characters(alloc, first))
}

fn some_sets(alloc: Global) -> Result<Vec<Ty>, AllocError> {
    let mut sets = Vec::new(alloc);
    for name in [
        TypeName::T,
        TypeName::Nil,
        TypeName::Integer,
        TypeName::Fixnum,
        TypeName::Bit,
        TypeName::Character,
        TypeName::Symbol,
        TypeName::Keyword,
        TypeName::Boolean,
        TypeName::List,
        TypeName::Atom,
        TypeName::Sequence,
        TypeName::Function,
    ] {
        sets.push(of_name(alloc, name)?)?;
    }
    sets.push(Ty::of_integers(alloc, 0, 4)?)?;
    sets.push(Ty::of_integers(alloc, 3, 9)?)?;
    sets.push(Ty::of_integers(alloc, LEAST, -1)?)?;
    sets.push(Ty::of_integers(alloc, GREATEST, GREATEST)?)?;
    sets.push(symbol_set(alloc, 7)?)?;
    sets.push(keyword_set(alloc, 7)?)?;
    sets.push(letter_set(alloc)?)?;
    Ok(sets)
}

#[test]
fn questions(rt: HostRuntime) -> Result<(), Fail> {
    let alloc = rt.alloc();
    let five = Ty::of_integers(alloc, 0, 4)?;
    let three = Ty::of_integers(alloc, 0, 2)?;
    let others = Ty::of_integers(alloc, 3, 4)?;
    assert!(rt; five.same(&three.union(alloc, &others)?));
    let items = Ty::of_integers(alloc, 3, 3)?.union(alloc, &symbol_set(alloc, 7)?)?;
    let symbols = of_name(alloc, TypeName::Symbol)?;
    assert!(rt; items.sub(&symbols.union(alloc, &Ty::of_integers(alloc, 3, 3)?)?));
    let lists = of_name(alloc, TypeName::List)?;
    let all = of_name(alloc, TypeName::T)?;
    assert!(rt; all.sub(&lists.union(alloc, &of_name(alloc, TypeName::Atom)?)?));
    let integers = of_name(alloc, TypeName::Integer)?;
    let fixnums = of_name(alloc, TypeName::Fixnum)?;
    assert!(rt; !integers.sub(&fixnums));
    assert!(rt; fixnums.sub(&integers));
    let null = of_name(alloc, TypeName::Null)?;
    assert!(rt; null.not(alloc)?.not(alloc)?.same(&symbol_set(alloc, 0)?));
    let conses = Ty::of_kinds(alloc, Kinds::CONSES);
    assert!(rt;
        conses
            .meet(alloc, &symbols)?
            .same(&of_name(alloc, TypeName::Nil)?)
    );
    Ok(())
}

#[test]
fn pairs(rt: HostRuntime) -> Result<(), Fail> {
    let alloc = rt.alloc();
    let sets = some_sets(alloc)?;
    for a in &sets {
        let outside = a.not(alloc)?;
        assert!(rt; outside.not(alloc)?.same(a));
        for b in &sets {
            let both = a.meet(alloc, b)?;
            let either = a.union(alloc, b)?;
            assert!(rt; both.sub(a) && b.sub(&either));
            assert_eq!(rt; a.sub(b), either.same(b));
            assert_eq!(rt; a.sub(b), both.same(a));
            let neither = outside.meet(alloc, &b.not(alloc)?)?;
            assert!(rt; neither.same(&either.not(alloc)?));
        }
    }
    Ok(())
}
