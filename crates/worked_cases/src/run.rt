//! Files of cases, run one case after the other.
use crate::answer::call;
use crate::reader::{Reader, bounds};
use crate::text::{filled, words};
use std::alloc::Global;

/// How many calls there were, how many were right, and what was wrong with the first that was not.
#[derive(Default, Drop)]
pub struct Tally {
    pub all: u64,
    pub right: u64,
    pub wrong: Option<String>,
}

impl Tally {
    /// Counts a call, or a case that isn't understood.
    pub fn count(&mut self, wrong: Option<String>) {
        self.all = self.all.saturating_add(1);
        self.right = self.right.saturating_add(wrong.is_none() as u64);
        self.wrong = self.wrong.take().or(wrong);
    }

    /// Runs the calls of a case, which has some, and keeps what `out` got in the last.
    fn run_calls(&mut self, reader: &mut Reader, title: &str) -> Option<()> {
        let mut out = None;
        for words in reader.behind(&["$"])? {
            let (taken, differs) = call(reader, words.get(1..)?)?;
            self.count(match differs {
                None => None,
                Some(line) => Some(format!(in reader.alloc; "{title}: {words:?}: {line}").ok()?),
            });
            out = Some(taken);
        }
        reader.keep(out?);
        Some(())
    }

    /// Runs the case of these lines for this number. The lines before the first case have no call.
    fn run_case(&mut self, reader: &mut Reader, title: &str, lines: &[&str], k: u64) -> Option<()> {
        for line in lines {
            reader.take(filled(reader.alloc, line, 'k', k)?.as_str())?;
        }
        if !reader.behind(&["case"])?.is_empty() {
            return self.run_calls(reader, title);
        }
        reader.share_files();
        Some(())
    }

    /// Runs the case of these lines for each of its numbers.
    fn run_cases(&mut self, reader: &mut Reader, file: &str, lines: &[&str]) -> Option<()> {
        let alloc = reader.alloc;
        let head = lines.first().copied().unwrap_or("");
        let each = lines.iter().find(|line| line.starts_with("for "));
        let (first, last) = match each {
            None => (0, 0),
            Some(line) => bounds(words(alloc, line)?.as_slice()).unwrap_or((0, 0)),
        };
        for k in first..=last {
            let title = match each {
                None => format!(in alloc; "{file}, {head}").ok()?,
                Some(_) => format!(in alloc; "{file}, {head}, {k}").ok()?,
            };
            if self.run_case(reader, title.as_str(), lines, k).is_none() {
                self.count(Some(format!(in alloc; "{title}: it is not understood").ok()?));
            }
            reader.forget();
        }
        Some(())
    }

    /// Runs the cases of a file, each of which begins with a line `case TITLE`.
    pub fn run_file(&mut self, alloc: Global, file: &str, text: &str) -> Option<()> {
        let lines = Vec::new(alloc);
        let mut reader = Reader { alloc, lines };
        let mut lines: Vec<&str> = Vec::new(alloc);
        for line in text.split('\n').chain(["case "]) {
            if line.starts_with("case ") {
                self.run_cases(&mut reader, file, lines.as_slice())?;
                lines.clear();
            }
            lines.push(line).ok()?;
        }
        Some(())
    }
}
