//! The lines of a case.
use crate::text::{gives_text, text_of, words};
use std::alloc::Global;

/// What the text below a line is: one with a name, which later lines cite, a file of a case or of every case, or what a sink
/// is to get. What `out` got, if it is kept, is one with a name from the next case on. Below other lines there is none.
#[derive(Clone, Copy, PartialEq, Eq)]
pub enum Kind {
    Text,
    Keep,
    File,
    Shared,
    Out,
    Err,
    Other,
}

/// The words of a line, and the text below it.
#[derive(Drop)]
pub struct Line {
    pub kind: Kind,
    pub words: Vec<String>,
    pub text: Vec<u8>,
}

/// The lines of a case, behind those of earlier ones whose texts last.
#[derive(Drop)]
pub struct Reader {
    pub alloc: Global,
    pub lines: Vec<Line>,
}

/// The numbers of the line `for FIRST to LAST`.
pub fn bounds(words: &[String]) -> Option<(u64, u64)> {
    let first = words.get(1)?.as_str().parse::<u64>().ok()?;
    let last = words.get(3)?.as_str().parse::<u64>().ok()?;
    Some((first, last))
}

/// What the text below a line with these words is, if the line is known.
fn kind_of(words: &[String]) -> Option<Kind> {
    let name = words.get(1).map_or("", |word| word.as_str());
    match words.first()?.as_str() {
        "text" => Some(Kind::Text),
        "keep" => Some(Kind::Keep),
        "file" => Some(Kind::File),
        "out" if name.is_empty() => Some(Kind::Out),
        "err" if name.is_empty() => Some(Kind::Err),
        "out" | "err" if name == "takes" || name == "holds" || name == "write" => Some(Kind::Other),
        "for" if bounds(words).is_none() => None,
        "case" | "for" | "$" | "status" | "fetch" | "fetched" => Some(Kind::Other),
        _ => None,
    }
}

impl Line {
    /// Its second word, or nothing.
    pub fn name(&self) -> &str {
        self.words.get(1).map_or("", |word| word.as_str())
    }
}

impl Reader {
    /// Takes the next line.
    pub fn take(&mut self, line: &str) -> Option<()> {
        if line.is_empty() || line.starts_with('#') {
            return Some(());
        }
        if gives_text(line) {
            let text = text_of(self.alloc, self.lines.as_slice(), line)?;
            let last = self.lines.last_mut()?;
            if last.kind == Kind::Other {
                return None;
            }
            return last.text.extend_from_slice(&text).ok();
        }
        let (words, text) = (words(self.alloc, line)?, Vec::new(self.alloc));
        let kind = kind_of(words.as_slice())?;
        self.lines.push(Line { kind, words, text }).ok()
    }

    /// Has the files that were given so far in every case.
    pub fn share_files(&mut self) {
        for line in self.lines.iter_mut() {
            if line.kind == Kind::File {
                line.kind = Kind::Shared;
            }
        }
    }

    /// Keeps what `out` got where the case says so.
    pub fn keep(&mut self, out: Vec<u8>) {
        if let Some(line) = self.lines.iter_mut().find(|line| line.kind == Kind::Keep) {
            line.kind = Kind::Text;
            line.text = out;
        }
    }

    /// Forgets a case, but not the texts with a name and the files of every case.
    pub fn forget(&mut self) {
        self.lines.retain(|line| line.kind == Kind::Text || line.kind == Kind::Shared);
    }

    /// What stands behind these words in each line that begins with them.
    pub fn behind<'x>(&'x self, head: &[&str]) -> Option<Vec<&'x [String]>> {
        let mut all = Vec::new(self.alloc);
        for line in self.lines.iter() {
            let mut pairs = head.iter().zip(line.words.iter());
            let begins = pairs.all(|(word, other)| *word == other.as_str());
            match line.words.get(head.len()..) {
                Some(rest) if begins => all.push(rest).ok()?,
                _ => (),
            }
        }
        Some(all)
    }

    /// The numbers that stand behind these words.
    pub fn numbers(&self, head: &[&str]) -> Option<Vec<u64>> {
        let mut all = Vec::new(self.alloc);
        for rest in self.behind(head)? {
            all.push(rest.first()?.as_str().parse::<u64>().ok()?).ok()?;
        }
        Some(all)
    }

    /// The first number that stands behind these words, or this one where none does.
    pub fn number(&self, head: &[&str], otherwise: u64) -> Option<u64> {
        Some(self.numbers(head)?.first().copied().unwrap_or(otherwise))
    }
}
