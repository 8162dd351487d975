//! A call of the program, and what differs between its answer and what a case wants.
use crate::reader::{Kind, Reader};
use dom_io::{MemoryShelf, MemorySink};
use domsyn::top;

/// As many bytes as a sink takes a call, and holds, where a case doesn't say.
const PLENTY: u64 = 1_048_576;

fn sink(reader: &Reader, name: &str) -> Option<MemorySink> {
    let most = reader.number(&[name, "takes"], PLENTY)? as usize;
    let size = reader.number(&[name, "holds"], PLENTY)? as usize;
    let fails = reader.numbers(&[name, "write"])?;
    MemorySink::new(reader.alloc, most.max(1), size, fails).ok()
}

/// The files of a case. Of two with one name the later stands first, and counts.
fn shelf(reader: &Reader) -> Option<MemoryShelf> {
    let mut files = Vec::new(reader.alloc);
    for line in reader.lines.iter().rev() {
        if matches!(line.kind, Kind::File | Kind::Shared) {
            let name = String::from_str(reader.alloc, line.name()).ok()?;
            files
                .push((name, line.text.to_vec(reader.alloc).ok()?))
                .ok()?;
        }
    }
    Some(MemoryShelf {
        files,
        fails: reader.numbers(&["fetch"])?,
        asked: Some(Vec::new(reader.alloc)),
        calls: 0,
        faults: 0,
    })
}

/// The first line in which a text differs from the wanted one, which is empty where there is none of this kind.
fn differs(reader: &Reader, kind: Kind, found: &[u8]) -> Option<Option<String>> {
    let line = reader.lines.iter().find(|line| line.kind == kind);
    let wanted = line.map_or(b"".as_slice(), |line| line.text.as_slice());
    let mut others = wanted.split(|byte| *byte == b'\n');
    for line in found.split(|byte| *byte == b'\n') {
        let other = others.next();
        if other != Some(line) {
            let line = String::from_utf8_lossy(reader.alloc, line).ok()?;
            let other = String::from_utf8_lossy(reader.alloc, other.unwrap_or(b"")).ok()?;
            return Some(Some(format!(in reader.alloc; "`{line}`, wanted `{other}`").ok()?));
        }
    }
    match others.next() {
        None => Some(None),
        Some(_) => Some(Some(format!(in reader.alloc; "an end too early").ok()?)),
    }
}

/// Whether these names were asked for in order, and each was given but the last where the status is 3.
fn was_asked(shelf: &MemoryShelf, names: &[String], status: u64) -> bool {
    let Some(asked) = &shelf.asked else {
        return false;
    };
    let mut right = asked.len() == names.len();
    for (index, (asking, name)) in asked.iter().zip(names.iter()).enumerate() {
        let given = status != 3 || index.saturating_add(1) < names.len();
        right &= asking.0.as_str() == name.as_str() && asking.1.is_some() == given;
    }
    right
}

/// Calls the program with these words: what `out` got, and what differs first.
pub fn call(reader: &Reader, words: &[String]) -> Option<(Vec<u8>, Option<String>)> {
    let alloc = reader.alloc;
    let mut shelf = shelf(reader)?;
    let mut out = sink(reader, "out")?;
    let mut err = sink(reader, "err")?;
    let status = top(alloc, words, &mut shelf, &mut out, &mut err) as u64;
    let wanted = reader.number(&["status"], 0)?;
    let fetched = reader.behind(&["fetched"])?;
    let differs = if status != wanted {
        Some(format!(in alloc; "status {status}, wanted {wanted}").ok()?)
    } else if let Some(line) = differs(reader, Kind::Out, &out.taken)? {
        Some(format!(in alloc; "out has {line}").ok()?)
    } else if let Some(line) = differs(reader, Kind::Err, &err.taken)? {
        Some(format!(in alloc; "err has {line}").ok()?)
    } else if !fetched.iter().all(|names| was_asked(&shelf, names, status)) {
        Some(format!(in alloc; "other files were fetched").ok()?)
    } else {
        None
    };
    Some((out.taken, differs))
}
