//! Values of ports.
ghost use Rattle.std.specs.Prelude.{◌≡◌, ◌+◌, ◌<◌, ◌≤◌, ◌^◌, IfOk, length};
ghost use Rattle.port_runs.specs.Environment.{bit};
ghost use Rattle.trace_tool.specs.Moves.{set_bits};
ghost use Rattle.trace_tool.specs.RunData.{values_from, with_move};

use dom_base::{OutOfMemory, Tri};
use event_sim::Sim;
use std::alloc::Global;
use std::sync::ledger::Ledger;
use switch_model::Steps;

/// Gives the ports from one on the values of these bits, one each, with no event between them.
pub fn set_ports<F: Fn(u64, u64) -> u64, L: Ledger>(
    sim: &mut Sim<F>,
    port: u32,
    bits: &[bool],
    steps: &mut Steps<L>,
)
    requires no_supply { 2 ≤ port }
    requires sources { port + length bits.now ≤ sim.old.links.sources }
    requires few { port + length bits.now < 2 ^ 32 }
    ensures set { sim.new ≡ with_move sim.old (set_bits port bits.now) }
{
    for (number, on) in bits.iter().enumerate() {
        sim.set_pin_counted(port + number as u32, value_of(*on), steps);
    }
}

/// The value of a bit.
pub fn value_of(on: bool) -> Tri
    ensures { result ≡ bit on }
{
    if on { Tri::One } else { Tri::Zero }
}

/// The values of so many nets from one on.
pub fn read_ports<F: Fn(u64, u64) -> u64>(
    alloc: Global,
    sim: &Sim<F>,
    port: u32,
    count: u32,
) -> Result<Vec<Tri>, OutOfMemory>
    requires within { port + count ≤ length sim.now.values }
    requires few { port + count < 2 ^ 32 }
    ensures { IfOk result (λ values. values.items ≡ values_from port count sim.now.values) }
{
    let mut values = Vec::new(alloc);
    for number in 0..count {
        values.push(sim.value(port + number))?;
    }
    Ok(values)
}
