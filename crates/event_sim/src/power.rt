//! The values of nets at power on.
ghost use Rattle.std.specs.Prelude.{◌≡◌, ◌+◌, ◌-◌, ◌<◌, ◌≤◌, ◌^◌, ◌++◌, IfOk, OnOk, replicate, vec_len};
ghost use Rattle.dom_base.specs.declared.tri.Tri.TheVariants.{One, Unknown, Zero};
ghost use Rattle.deck.specs.PortLayout.{source_count};
ghost use Rattle.switch_model.specs.Power.{source_values};

use deck::Roles;
use dom_base::{OutOfMemory, Tri};
use std::alloc::Global;

/// The values of `lm`, `lmb`, `ls`, `lsb`, `rs`, `rsb`.
const LATCH_VALUES: [Tri; 6] = [
    Tri::Zero,
    Tri::One,
    Tri::Zero,
    Tri::One,
    Tri::One,
    Tri::Zero,
];

/// The power state of so many nets, of which the first have these roles.
pub fn power_values(alloc: Global, roles: Roles, nets: usize) -> Result<Vec<Tri>, OutOfMemory>
    requires { source_count roles ≤ nets }
    ensures { IfOk result (λ values. values.items ≡ source_values roles ++ replicate (nets - source_count roles) Unknown) }
{
    let clocks = roles.clocks as usize;
    let pins = roles.pins as usize;
    let mut values = Vec::new(alloc);
    values.push(Tri::One)?;
    values.push(Tri::Zero)?;
    fill(&mut values, Tri::Zero, clocks)?;
    values.extend_from_slice(&LATCH_VALUES)?;
    fill(&mut values, Tri::Zero, pins)?;
    fill(
        &mut values,
        Tri::Unknown,
        nets - (roles.first_pin() as usize + pins),
    )?;
    Ok(values)
}

/// Adds a value so many times at the end.
fn fill(values: &mut Vec<Tri>, value: Tri, count: usize) -> Result<(), OutOfMemory>
    requires { vec_len values.old + count < 2 ^ 64 }
    ensures { OnOk result (values.new.items ≡ values.old.items ++ replicate count value) }
{
    values.resize(values.len() + count, value)?;
    Ok(())
}
