//! The reader.
ghost use Rattle.std.specs.Prelude.{ℕ, ◌≡◌, ◌<◌, ◌+◌, IfOk, IsErrOf};
ghost use Rattle.stim_text.specs.Stimuli.{IsStimulusOf, IsStimFaultAt, letters_of};
ghost use Rattle.stim_text.specs.LinesRead.{IsLineRead, IsLineFault};

use crate::letters::{fault_of, is_good, push_pins, take_letters};
use crate::{StimFault, Stimulus};
use dom_base::cut_line;
use std::alloc::Global;

/// The cycles of a stimulus for this number of pins, or the first line with a fault and its kind.
///
/// A comment begins at the first `#` of a line; blanks and tabs are dropped, and so is a CR that
/// ends a line. Each line on which something is left is a cycle, with a letter `0` or `1` for each
/// pin, or `-` where there are no pins. Lines are numbered from 1.
pub fn read_stim(alloc: Global, text: &[u8], width: u32) -> Result<Stimulus, StimFault>
    ensures stimulus { IfOk result (λ cycles. IsStimulusOf width text.now cycles) }
    ensures fault { (line : ℕ) (kind : _) → IsErrOf result (StimFault.At line kind) → IsStimFaultAt width text.now line kind }
{
    let mut bits = Vec::new(alloc);
    let mut count = 0;
    let mut rest = text;
    let mut number = 1;
    let mut letters = Vec::new(alloc);
    'lines: while let Some((line, more)) = cut_line(rest) {
        count += read_line(&mut letters, line, number, width, &mut bits)?;
        rest = more;
        number += 1;
    }
    Ok(Stimulus::new(bits, width as usize, count))
}

/// Appends the bits of a line, if it is a cycle, and answers how many cycles it is: one, or none where it has no letters. Most
/// lines have no other bytes than their letters; those of another line are put in `letters`.
fn read_line(
    letters: &mut Vec<u8>,
    line: &[u8],
    number: u64,
    width: u32,
    bits: &mut Vec<bool>,
) -> Result<usize, StimFault>
    ensures cycle { IfOk result (λ cycles. IsLineRead width (letters_of line.now) bits.old.items cycles bits.new.items) }
    ensures fault { (n : ℕ) (k : _) → IsErrOf result (StimFault.At n k) → (n ≡ number) × IsLineFault width (letters_of line.now) k }
{
    if is_good(line, width) {
        push_pins(bits, line, width)?;
        return Ok(1);
    }
    take_letters(letters, line)?;
    if letters.is_empty() {
        return Ok(0);
    }
    match fault_of(letters, width) {
        Some(kind) => Err(StimFault::At { line: number, kind }),
        None => {
            push_pins(bits, letters, width)?;
            Ok(1)
        }
    }
}
