use super::*;
use std::fs;
use std::test::Fail;

#[test]
fn a_source_gives_its_bytes_in_chunks(rt: HostRuntime) -> Result<(), Fail> {
    let bytes = b"abcde".to_vec(rt.alloc())?;
    let fails = [2u64].to_vec(rt.alloc())?;
    let mut source = MemSource::new(bytes, 3, fails);
    let mut buf = [0u8; 8];
    assert_eq!(rt; source.take(&mut buf), Took::Bytes(3));
    assert_eq!(rt; source.take(&mut buf), Took::Failed);
    assert_eq!(rt; source.take(&mut buf), Took::Bytes(2));
    assert_eq!(rt; source.take(&mut buf), Took::End);
    assert_eq!(rt; buf, *b"dec\0\0\0\0\0");
    Ok(())
}

#[test]
fn a_sink_keeps_what_it_took(rt: HostRuntime) -> Result<(), Fail> {
    let fails = [2u64].to_vec(rt.alloc())?;
    let mut sink = MemSink::new(rt.alloc(), 3, fails);
    assert_eq!(rt; sink.put(b"abcde"), Put::Bytes(3));
    assert_eq!(rt; sink.put(b"x"), Put::Failed);
    assert_eq!(rt; sink.put(b"de"), Put::Bytes(2));
    assert_eq!(rt; sink.bytes(), b"abcde".as_slice());
    Ok(())
}

fn got(store: &mut impl Store, name: &str, limit: usize) -> Option<Bytes> {
    match store.get(name, limit) {
        Got::Bytes(bytes) => Some(bytes),
        _ => None,
    }
}

#[test]
fn a_store_keeps_names_apart(rt: HostRuntime) -> Result<(), Fail> {
    let fails = [3u64].to_vec(rt.alloc())?;
    let mut store = MemStore::new(rt.alloc(), fails);
    assert!(rt; store.add("a", b"one").is_ok());
    assert_eq!(rt; store.set("b", b"two"), SetAnswer::Set);
    assert_eq!(rt; store.set("a", b"three"), SetAnswer::Set);
    assert_eq!(rt; store.set("b", b"four"), SetAnswer::Failed);
    assert_eq!(rt;
        got(&mut store, "a", 4).ok_or("a")?.as_slice(),
        b"thre".as_slice()
    );
    assert_eq!(rt;
        got(&mut store, "b", 9).ok_or("b")?.as_slice(),
        b"two".as_slice()
    );
    assert_eq!(rt; store.look("a").ok_or("a")?, b"three".as_slice());
    assert!(rt; store.look("c").is_none());
    assert!(rt; matches!(store.get("c", 9), Got::Absent));
    Ok(())
}

#[test]
fn files_are_set_and_got(rt: HostRuntime) -> Result<(), Fail> {
    let name = "outside_io_test.tmp";
    let mut store = FileStore::new(rt);
    assert_eq!(rt; store.set(name, b"first, and longer"), SetAnswer::Set);
    assert_eq!(rt; store.set(name, b"second"), SetAnswer::Set);
    assert_eq!(rt;
        got(&mut store, name, 100).ok_or("whole")?.as_slice(),
        b"second".as_slice()
    );
    assert_eq!(rt;
        got(&mut store, name, 3).ok_or("front")?.as_slice(),
        b"sec".as_slice()
    );
    fs::remove_file(&rt, name)?;
    assert!(rt; matches!(store.get(name, 100), Got::Absent));
    assert!(rt; matches!(store.get(".", 100), Got::Failed));
    assert_eq!(rt; store.set("absent/name", b""), SetAnswer::Failed);
    let mut out = StdSink::out(rt);
    assert_eq!(rt; out.put(b"ok\n"), Put::Bytes(3));
    let mut err = StdSink::err(rt);
    assert_eq!(rt; err.put(b""), Put::Bytes(0));
    let mut source = StdSource::new(rt);
    let mut buf = [0u8; 4];
    assert!(rt; !matches!(source.take(&mut buf), Took::Failed));
    Ok(())
}
