//! The adapters over a real file and over streams, and the shelf and the sink in memory.
ghost use Rattle.std.specs.Prelude.{ℕ};

use dom_io::{
    FetchFault, FileShelf, MemoryShelf, MemorySink, Shelf, Sink, SinkFault, StreamSink, put_all,
};
use std::alloc::Global;
use std::io::Write;
use std::test::Fail;
use std::{fs, io};

const PLENTY: usize = 1_048_576;

/// A stream that takes nothing.
#[derive(Drop)]
struct Stuck;

impl Write for Stuck {
    fn write(&mut self, _buf: &[u8]) -> io::Result<usize> {
        Ok(0)
    }

    fn flush(&mut self) -> io::Result<()> {
        Ok(())
    }
}

/// Whether a fetch gave these bytes, or failed where none are wanted.
fn gives<S: Shelf>(shelf: &mut S, alloc: Global, name: &str, want: Option<&[u8]>) -> bool
    requires { S.may_ask shelf.old name.now }
{
    match (shelf.fetch(alloc, name), want) {
        (Ok(bytes), Some(want)) => bytes.as_slice() == want,
        (Err(FetchFault::Failed), None) => true,
        _ => false,
    }
}

/// Whether all bytes were put, or the sink failed where that is wanted.
fn puts<K: Sink>(sink: &mut K, bytes: &[u8], want: Result<(), SinkFault>) -> bool
    requires { (n : ℕ) → K.has_room sink.old n }
{
    put_all(sink, bytes) == want
}

#[test]
fn real_file(rt: HostRuntime) -> Result<(), Fail> {
    let alloc = rt.alloc();
    let path = "dom_io-written";
    let mut sink = StreamSink {
        stream: fs::create(&rt, path)?,
        faults: 0,
    };
    assert!(rt; puts(&mut sink, b"* phase o_f +\n", Ok(())));
    assert_eq!(rt; sink.faults, 0);
    let mut shelf = FileShelf {
        rt: rt.clone()?,
        faults: 0,
    };
    assert!(rt; gives(&mut shelf, alloc, path, Some(b"* phase o_f +\n")));
    assert_eq!(rt; shelf.faults, 0);
    fs::remove_file(&rt, path)?;
    assert!(rt; gives(&mut shelf, alloc, path, None), "a missing file");
    assert_eq!(rt; shelf.faults, 1);
    assert!(rt; gives(&mut shelf, alloc, ".", None), "a folder");
    assert_eq!(rt; shelf.faults, 2);
    Ok(())
}

#[test]
fn stuck_stream(rt: HostRuntime) {
    let mut stuck = StreamSink {
        stream: Stuck,
        faults: 0,
    };
    assert!(rt; puts(&mut stuck, b"", Ok(())));
    assert!(rt; puts(&mut stuck, b"a", Err(SinkFault::Failed)));
    assert_eq!(rt; stuck.faults, 1);
}

/// A shelf with two files of one name and an empty one, whose third call fails.
fn shelf_of_three(alloc: Global) -> Result<MemoryShelf, Fail> {
    let mut files = Vec::new(alloc);
    for (name, text) in FILES {
        files.push((
            String::from_str(alloc, name)?,
            Vec::from_slice(alloc, text)?,
        ))?;
    }
    Ok(MemoryShelf {
        files,
        fails: vec![in alloc; 3]?,
        asked: Some(Vec::new(alloc)),
        calls: 0,
        faults: 0,
    })
}

/// The files of that shelf.
const FILES: &[(&str, &[u8])] = &[("a", b"first"), ("a", b"second"), ("b", b"")];

#[test]
fn memory_shelf(rt: HostRuntime) -> Result<(), Fail> {
    let alloc = rt.alloc();
    let mut shelf = shelf_of_three(alloc)?;
    assert!(rt; gives(&mut shelf, alloc, "a", Some(b"first")));
    assert!(rt; gives(&mut shelf, alloc, "b", Some(b"")));
    assert!(rt; gives(&mut shelf, alloc, "a", None), "the third call");
    assert!(rt;
        gives(&mut shelf, alloc, "c", None),
        "a name that is not held"
    );
    assert_eq!(rt; (shelf.calls, shelf.faults), (4, 2));
    let told = matches!(&shelf.asked, Some(asked) if asked.len() == 4);
    assert!(rt; told, "what it was asked for");
    Ok(())
}

#[test]
fn memory_sink(rt: HostRuntime) -> Result<(), Fail> {
    let alloc = rt.alloc();
    let mut sink = MemorySink::new(alloc, 16, PLENTY, vec![in alloc; 2]?)?;
    let text = b"* domsyn deck 1\n* phase o_f +\n";
    assert!(rt; puts(&mut sink, text, Err(SinkFault::Failed)));
    assert!(rt; sink.taken.as_slice() == b"* domsyn deck 1\n".as_slice());
    assert!(rt; puts(&mut sink, b"+ i_a\n", Ok(())));
    assert!(rt; sink.taken.as_slice() == b"* domsyn deck 1\n+ i_a\n".as_slice());
    assert_eq!(rt; (sink.calls, sink.faults), (3, 1));
    Ok(())
}

#[test]
fn full_memory_sink(rt: HostRuntime) -> Result<(), Fail> {
    let alloc = rt.alloc();
    let mut full = MemorySink::new(alloc, 3, 4, Vec::new(alloc))?;
    assert!(rt; puts(&mut full, b"abcdef", Err(SinkFault::Failed)));
    assert!(rt; full.taken.as_slice() == b"abcd".as_slice());
    assert_eq!(rt; (full.calls, full.faults), (3, 1));
    Ok(())
}
