//! The shelf and the sink that never fail.
use dom_io::{FetchFault, Shelf, Sink, SureShelf, SureSink, put_all};
use std::alloc::Global;
use std::test::Fail;

/// The bytes of a file that is held.
fn fetched(
    shelf: &mut SureShelf,
    alloc: Global,
    name: &str,
) -> Option<Result<Vec<u8>, FetchFault>> {
    if shelf.holds(name) {
        Some(shelf.fetch(alloc, name))
    } else {
        None
    }
}

#[test]
fn a_shelf_of_what_is_asked_for(rt: HostRuntime) -> Result<(), Fail> {
    let alloc = rt.alloc();
    let mut files = Vec::new(alloc);
    for (name, text) in [("a", b"first".as_slice()), ("a", b"second"), ("none", b"")] {
        files.push((String::from_str(alloc, name)?, text.to_vec(alloc)?))?;
    }
    let mut shelf = SureShelf { files };
    for (name, text) in [("a", b"first".as_slice()), ("none", b""), ("a", b"first")] {
        let right =
            matches!(fetched(&mut shelf, alloc, name), Some(Ok(bytes)) if bytes.as_slice() == text);
        assert!(rt; right, "{name}");
    }
    assert!(rt; fetched(&mut shelf, alloc, "b").is_none());
    Ok(())
}

#[test]
fn a_sink_with_room(rt: HostRuntime) -> Result<(), Fail> {
    let alloc = rt.alloc();
    let mut sink = SureSink::new(alloc, 20)?;
    assert_eq!(rt; sink.write(b"model and2\n"), Ok(11));
    assert_eq!(rt; sink.write(b""), Ok(0));
    assert_eq!(rt; put_all(&mut sink, b"inputs 2\n"), Ok(()));
    assert_eq!(rt; sink.taken.as_slice(), b"model and2\ninputs 2\n".as_slice());
    assert_eq!(rt; sink.size, 20);
    Ok(())
}
