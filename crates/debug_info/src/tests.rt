use super::*;
use std::test::*;

const FILE: SitePlace = SitePlace::File { offset: 7, tail: 9 };

const PRELUDE: SitePlace = SitePlace::Prelude { text: 0 };

fn site(pc: u64, place: SitePlace) -> SiteRow {
    SiteRow {
        pc,
        place,
        text: None,
    }
}

#[test]
fn rows_are_found(rt: HostRuntime) -> Result<(), Fail> {
    let alloc = rt.alloc();
    let texts = vec![in alloc; String::from_str(alloc, "CAR")?]?;
    let sites = vec![in alloc; site(65_536, FILE), site(65_600, PRELUDE)]?;
    let functions = vec![in alloc;
        FunRow {
            start: 65_536,
            name: 0,
            words: 3
        },
    ]?;
    let variables = vec![in alloc]?;
    let debug = Debug::checked(texts, sites, functions, variables).ok_or("the rows are right")?;
    assert!(rt; debug.place_of(65_535).is_none());
    assert_eq!(rt; debug.place_of(65_536).ok_or("a site")?.place, FILE);
    assert_eq!(rt; debug.place_of(65_599).ok_or("a site")?.place, FILE);
    assert_eq!(rt; debug.place_of(u64::MAX).ok_or("a site")?.place, PRELUDE);
    assert_eq!(rt; debug.text(0), Some("CAR"));
    assert_eq!(rt; debug.text(1), None);
    assert_eq!(rt; debug.functions().len(), 1);
    Ok(())
}

#[test]
fn wrong_rows(rt: HostRuntime) -> Result<(), Fail> {
    let alloc = rt.alloc();
    let equal = vec![in alloc; site(65_536, FILE), site(65_536, FILE)]?;
    let none = Debug::checked(vec![in alloc]?, equal, vec![in alloc]?, vec![in alloc]?);
    assert!(rt; none.is_none());
    let no_text = vec![in alloc; site(65_536, PRELUDE)]?;
    let none = Debug::checked(vec![in alloc]?, no_text, vec![in alloc]?, vec![in alloc]?);
    assert!(rt; none.is_none());
    assert!(rt; Debug::empty(alloc).place_of(65_536).is_none());
    Ok(())
}
