//! What clocks the latches of a file.
ghost use Rattle.std.specs.Prelude.{◌≡◌, [], Contains, false, true};
ghost use Rattle.net_flatten.specs.ClockSearches.{IsAtNumber, IsControlFound, IsOtherClockFound, differs_from_clock, joined_clock};
ghost use Rattle.net_flatten.specs.FoundFirst.{IsFoundFirst};
ghost use Rattle.part_numbers.specs.NumberedFiles.{HasNumbers};

use blif_ast::Edge2;
use part_numbers::{CardFile, NumberedFile, NumberedPart, edge_of};

/// What latches are clocked by, as far as any says it: the edge, and the number of the signal.
#[derive(Clone, Copy)]
pub struct Clock {
    pub edge: Option<Edge2>,
    pub signal: Option<u32>,
}

/// The signal that controls latches: the index of the first latch that names it, and its number.
#[derive(Clone, Copy)]
pub struct ControlAt {
    pub latch: usize,
    pub number: u32,
}

impl Clock {
    /// Whether an edge, or a signal where there is one, is another than the clock's.
    fn differs(self, edge: Edge2, signal: Option<u32>) -> bool
        ensures { result ≡ differs_from_clock self edge signal }
    {
        let other_edge = match self.edge {
            None => false,
            Some(known) => known != edge,
        };
        let other_signal = match (self.signal, signal) {
            (Some(known), Some(number)) => known != number,
            _ => false,
        };
        other_edge || other_signal
    }

    /// The clock with what one latch more says.
    fn joined(self, edge: Edge2, signal: Option<u32>) -> Clock
        ensures { result ≡ joined_clock self edge signal }
    {
        Clock {
            edge: Some(edge),
            signal: match self.signal {
                None => signal,
                Some(known) => Some(known),
            },
        }
    }
}

/// The index of the first latch with a type that is clocked otherwise than one before it.
pub fn find_other_clock(file: &CardFile<'_>, numbered: &NumberedFile<'_>) -> Option<usize>
    requires numbers { HasNumbers file.now numbered.now }
    ensures { IsOtherClockFound file.now numbered.now.parts result }
{
    let parts = numbered.parts();
    let mut clock = Clock {
        edge: None,
        signal: None,
    };
    for index in 0..parts.len() {
        let part = &parts[index];
        if let Some(edge) = edge_of(file, part) {
            if clock.differs(edge, part.control) {
                return Some(index);
            }
            clock = clock.joined(edge, part.control);
        }
    }
    None
}

/// The first latch that a signal controls, and that signal.
pub fn find_control(parts: &[NumberedPart]) -> Option<ControlAt>
    ensures { IsControlFound parts.now result }
{
    for index in 0..parts.len() {
        let part = &parts[index];
        if let Some(number) = part.control {
            return Some(ControlAt {
                latch: index,
                number,
            });
        }
    }
    None
}

/// Whether a number stands in a list.
pub fn has(numbers: &[u32], number: u32) -> bool
    ensures there { result ≡ true → Contains numbers.now number }
    ensures not_there { result ≡ false → Contains numbers.now number → ⊥ }
{
    numbers.contains(&number)
}

/// Whether a part reads or drives the signal of a number.
fn has_number(part: &NumberedPart, number: u32) -> bool
    ensures at { result ≡ true → IsAtNumber number [] part.now }
    ensures not_at { result ≡ false → IsAtNumber number [] part.now → ⊥ }
{
    part.drives == number || part.reads.as_slice().contains(&number)
}

/// The index of the first part that reads or drives the signal of a number.
pub fn find_number(parts: &[NumberedPart], number: u32) -> Option<usize>
    ensures { IsFoundFirst (IsAtNumber number) parts.now result }
{
    for index in 0..parts.len() {
        let part = &parts[index];
        if has_number(part, number) {
            return Some(index);
        }
    }
    None
}
