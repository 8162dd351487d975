//! The cycles of a stimulus.
ghost use Rattle.std.specs.Prelude.{◌≡◌, ◌<◌, ◌≤◌, ◌+◌, ◌*◌, Some, drop, length, slice_get, take};
ghost use Rattle.stim_text.specs.Rows.{rows};

use std::marker::Model;

/// The cycles of a stimulus: for each the values of the pins, a bit for each pin in order. All bits stand in one vector.
#[derive(Drop)]
pub struct Stimulus {
    bits: Vec<bool>,
    width: usize,
    count: usize,
}

impl Model for Stimulus {
    ghost use Rattle.std.specs.Prelude.{◌≡◌, ◌*◌, Bool, List, length};
    ghost use Rattle.stim_text.specs.Rows.{rows};

    ghost Value = { List (List Bool) };

    ghost view = { λ s. rows s.width s.count s.bits.items };

    ghost invariant = { λ s. length s.bits.items ≡ s.count * s.width };
}

impl Stimulus {
    /// So many cycles of so many bits each.
    pub(crate) fn new(bits: Vec<bool>, width: usize, count: usize) -> Stimulus
        requires { length bits.items ≡ count * width }
        ensures { result ≡ rows width count bits.items }
    {
        Stimulus { bits, width, count }
    }

    /// How many cycles there are.
    pub fn len(&self) -> usize
        ensures { result ≡ length self.now }
    {
        self.count
    }

    /// The bits of a cycle, by its index from 0.
    pub fn cycle(&self, index: usize) -> &[bool]
        requires { index < length self.now }
        ensures { slice_get self.now index ≡ Some result.now }
    {
        row_at(&self.bits, self.width, index)
    }
}

/// So many bits behind as many times so many.
fn row_at(bits: &[bool], width: usize, index: usize) -> &[bool]
    requires { index * width + width ≤ length bits.now }
    ensures { result.now ≡ take width (drop (index * width) bits.now) }
{
    let start = index * width;
    &bits[start..start + width]
}
