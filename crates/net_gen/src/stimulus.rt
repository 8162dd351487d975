//! Stimuli of networks that are generated.
ghost use Rattle.std.specs.Prelude.{◌≡◌, ◌++◌, ◌∷◌, [], IfOk, OnOk, map};
ghost use Rattle.stim_text.specs.CycleLines.{bit_letter, pin_letters};
ghost use Rattle.net_gen.specs.Stimulus.{stimulus_bit, stimulus_cycle, stimulus_text};

use dom_base::{OutOfMemory, append};
use std::alloc::Global;

/// The text of the stimulus of a seed for so many pins: four cycles, a line each. In cycle t pin p is 1
/// where `p + t + seed` is a multiple of 3. The one error is out of memory.
pub fn bench_stimulus(alloc: Global, seed: u64, width: u32) -> Result<Vec<u8>, OutOfMemory>
    ensures { IfOk result (λ text. text.items ≡ stimulus_text seed width) }
{
    let mut text = Vec::new(alloc);
    'cycles: for cycle in 0..4 {
        push_cycle(&mut text, seed, width, cycle)?;
    }
    Ok(text)
}

/// Appends the line of a cycle: a letter for each pin, or `-` where there are none.
fn push_cycle(text: &mut Vec<u8>, seed: u64, width: u32, cycle: u32) -> Result<(), OutOfMemory>
    ensures { OnOk result (text.new.items ≡ text.old.items ++ pin_letters (stimulus_cycle seed width cycle) ++ 10 ∷ []) }
{
    if width == 0 {
        return append(text, b"-\n");
    }
    push_letters(text, seed, width, cycle)?;
    append(text, b"\n")
}

/// Appends a letter for each pin.
fn push_letters(text: &mut Vec<u8>, seed: u64, width: u32, cycle: u32) -> Result<(), OutOfMemory>
    ensures { OnOk result (text.new.items ≡ text.old.items ++ map bit_letter (stimulus_cycle seed width cycle)) }
{
    'pins: for pin in 0..width {
        text.push(if is_one(seed, cycle, pin) { b'1' } else { b'0' })?;
    }
    Ok(())
}

/// Whether a pin is 1 in a cycle.
fn is_one(seed: u64, cycle: u32, pin: u32) -> bool
    ensures { result ≡ stimulus_bit seed cycle pin }
{
    (pin as u64 + cycle as u64 + seed % 3) % 3 == 0
}
