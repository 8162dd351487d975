//! The parts of a model with names of their own, appended to the lists of a file by numbers in the order of their lines.
ghost use Rattle.std.specs.Prelude.{◌≡◌, ◌≢◌, [], IfOk, IfSome, IsFalse, IsNone, IsSome, IsTrue};
ghost use Rattle.numbered_file.specs.OpenLists.{open_lists};
ghost use Rattle.file_copies.specs.Pushing.{IsNext, IsPushing, IsReached, IsToCome, state};

use crate::part_words::{push_instance, push_latch, push_table};
use blif_ast::{Instance, Latch, Table};
use dom_base::OutOfMemory;
use numbered_file::OpenFile;

/// A kind of parts.
#[derive(Clone, Copy, Debug)]
pub enum Due {
    Table,
    Latch,
    Instance,
}

/// The parts of a model that are to come.
#[derive(Drop)]
pub struct Rest<'m> {
    pub tables: &'m [Table],
    pub latches: &'m [Latch],
    pub instances: &'m [Instance],
}

impl<'m> Rest<'m> {
    /// The kind of the part that comes next: that with the smallest line, and of those a table before a latch before an
    /// instance.
    fn due(&self) -> Option<Due>
        ensures some { IfSome result (IsToCome self.now.tables.now self.now.latches.now self.now.instances.now) }
        ensures none { IsNone result → (self.now.tables.now ≡ []) × (self.now.latches.now ≡ []) × (self.now.instances.now ≡ []) }
    {
        let table = table_line(self.tables);
        let latch = latch_line(self.latches);
        let instance = instance_line(self.instances);
        if is_first(table, latch, instance) {
            return Some(Due::Table);
        }
        if is_first(latch, instance, None) {
            return Some(Due::Latch);
        }
        match instance {
            Some(_) => Some(Due::Instance),
            None => None,
        }
    }
}

/// Whether the first is a line, and neither of the others is a smaller one.
fn is_first(line: Option<u64>, second: Option<u64>, third: Option<u64>) -> bool
    ensures some { IsTrue result → IsSome line }
    ensures none { IsFalse result → IsNone second → IsNone third → IsNone line }
{
    match line {
        Some(line) => is_before(line, second) && is_before(line, third),
        None => false,
    }
}

/// Whether a line isn't behind another.
fn is_before(line: u64, other: Option<u64>) -> bool
    ensures { IsFalse result → IsSome other }
{
    match other {
        Some(other) => line <= other,
        None => true,
    }
}

fn table_line(tables: &[Table]) -> Option<u64>
    ensures some { IsSome result → tables.now ≢ [] }
    ensures none { IsNone result → tables.now ≡ [] }
{
    match tables {
        [table, ..] => Some(table.line),
        [] => None,
    }
}

fn latch_line(latches: &[Latch]) -> Option<u64>
    ensures some { IsSome result → latches.now ≢ [] }
    ensures none { IsNone result → latches.now ≡ [] }
{
    match latches {
        [latch, ..] => Some(latch.line),
        [] => None,
    }
}

fn instance_line(instances: &[Instance]) -> Option<u64>
    ensures some { IsSome result → instances.now ≢ [] }
    ensures none { IsNone result → instances.now ≡ [] }
{
    match instances {
        [instance, ..] => Some(instance.line),
        [] => None,
    }
}

/// Appends the parts that are to come. The letters of their rows are the first of these, the last of the text; the result
/// is what stands behind them. The one error is out of memory.
pub fn push_parts<'t>(
    file: &mut OpenFile<'t>,
    parts: Rest<'t>,
    letters: &'t [u8],
) -> Result<&'t [u8], OutOfMemory>
    requires { IsPushing (state (open_lists file.old) parts.tables.now parts.latches.now parts.instances.now letters.now) }
    ensures { IfOk result (λ left. IsReached
        (state (open_lists file.old) parts.entry.tables.now parts.entry.latches.now parts.entry.instances.now letters.now)
        (state (open_lists file.new) [] [] [] left.now)) }
{
    let mut rest = parts;
    let mut left = letters;
    'parts: while let Some(due) = rest.due() {
        left = push_due(file, &mut rest, due, left)?;
    }
    Ok(left)
}

/// Appends the next part of this kind.
fn push_due<'t>(
    file: &mut OpenFile<'t>,
    rest: &mut Rest<'t>,
    due: Due,
    letters: &'t [u8],
) -> Result<&'t [u8], OutOfMemory>
    requires due { IsToCome rest.old.tables.now rest.old.latches.now rest.old.instances.now due }
    requires pushing { IsPushing
        (state (open_lists file.old) rest.old.tables.now rest.old.latches.now rest.old.instances.now letters.now) }
    ensures { IfOk result (λ left. IsNext
        (state (open_lists file.old) rest.old.tables.now rest.old.latches.now rest.old.instances.now letters.now)
        (state (open_lists file.new) rest.new.tables.now rest.new.latches.now rest.new.instances.now left.now)) }
{
    match due {
        Due::Table => push_next_table(file, rest, letters),
        Due::Latch => push_next_latch(file, rest, letters),
        Due::Instance => push_next_instance(file, rest, letters),
    }
}

fn push_next_table<'t>(
    file: &mut OpenFile<'t>,
    rest: &mut Rest<'t>,
    letters: &'t [u8],
) -> Result<&'t [u8], OutOfMemory>
    requires due { rest.old.tables.now ≢ [] }
    requires pushing { IsPushing
        (state (open_lists file.old) rest.old.tables.now rest.old.latches.now rest.old.instances.now letters.now) }
    ensures { IfOk result (λ left. IsNext
        (state (open_lists file.old) rest.old.tables.now rest.old.latches.now rest.old.instances.now letters.now)
        (state (open_lists file.new) rest.new.tables.now rest.new.latches.now rest.new.instances.now left.now)) }
{
    match rest.tables {
        [table, more @ ..] => {
            let left = push_table(file, table, letters)?;
            rest.tables = more;
            Ok(left)
        }
        [] => Ok(letters),
    }
}

fn push_next_latch<'t>(
    file: &mut OpenFile<'t>,
    rest: &mut Rest<'t>,
    letters: &'t [u8],
) -> Result<&'t [u8], OutOfMemory>
    requires due { rest.old.latches.now ≢ [] }
    requires pushing { IsPushing
        (state (open_lists file.old) rest.old.tables.now rest.old.latches.now rest.old.instances.now letters.now) }
    ensures { IfOk result (λ left. IsNext
        (state (open_lists file.old) rest.old.tables.now rest.old.latches.now rest.old.instances.now letters.now)
        (state (open_lists file.new) rest.new.tables.now rest.new.latches.now rest.new.instances.now left.now)) }
{
    match rest.latches {
        [latch, more @ ..] => {
            push_latch(file, latch)?;
            rest.latches = more;
            Ok(letters)
        }
        [] => Ok(letters),
    }
}

fn push_next_instance<'t>(
    file: &mut OpenFile<'t>,
    rest: &mut Rest<'t>,
    letters: &'t [u8],
) -> Result<&'t [u8], OutOfMemory>
    requires due { rest.old.instances.now ≢ [] }
    requires pushing { IsPushing
        (state (open_lists file.old) rest.old.tables.now rest.old.latches.now rest.old.instances.now letters.now) }
    ensures { IfOk result (λ left. IsNext
        (state (open_lists file.old) rest.old.tables.now rest.old.latches.now rest.old.instances.now letters.now)
        (state (open_lists file.new) rest.new.tables.now rest.new.latches.now rest.new.instances.now left.now)) }
{
    match rest.instances {
        [instance, more @ ..] => {
            push_instance(file, instance)?;
            rest.instances = more;
            Ok(letters)
        }
        [] => Ok(letters),
    }
}
