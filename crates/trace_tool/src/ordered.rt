//! A run in an order of events with a seed.
ghost use Rattle.std.specs.Prelude.{◌≡◌, ◌<◌, ◌≤◌, All, IfOk, List, length};
ghost use Rattle.event_sim.specs.Orders.{By};
ghost use Rattle.deck.specs.Roles.{AreRoles, ports_of};
ghost use Rattle.net_run.specs.Runs.{Cycle, IsNetworkRun};
ghost use Rattle.trace_tool.specs.Traces.{IsRun, picked_place};
ghost use Rattle.trace_tool.specs.Verdicts.{IsRunVerdict};

use crate::comparison::compared;
use crate::cycles::traced;
use crate::setup::Setup;
use crate::{Order, Trace, Verdict};
use dom_base::OutOfMemory;
use event_sim::{Chooser, first, last, seeded};
use net_flatten::Network;
use std::alloc::Global;
use std::marker::Brand;
use std::sync::ledger::Blank;
use stim_text::Stimulus;

/// The trace over these cycles, in an order with a seed.
pub fn traced_by(
    alloc: Global,
    setup: Setup<'_>,
    cycles: &Stimulus,
    order: Order,
    seed: u64,
) -> Result<Trace, OutOfMemory>
    requires roles { AreRoles (ports_of setup.circuit) setup.roles }
    requires widths { All (λ pins. length pins ≡ setup.roles.pins) cycles.now }
    ensures { IfOk result (λ trace. IsRun (By (picked_place order seed)) setup.entry cycles.now trace) }
{
    let chooser = Chooser::new(
        move |step: u64, count: u64| -> u64
            requires { 1 ≤ count }
            ensures place { result ≡ picked_place order seed step count }
            ensures below { result < count }
        { place_in(order, seed, step, count) },
    );
    traced::<_, Brand>(alloc, setup, cycles, chooser, Blank::new(1))
}

/// The verdict of these cycles beside those of a network, in an order with a seed.
pub fn compared_by(
    alloc: Global,
    setup: Setup<'_>,
    network: &Network,
    cycles: &Stimulus,
    order: Order,
    seed: u64,
) -> Result<Verdict, OutOfMemory>
    requires roles { AreRoles (ports_of setup.circuit) setup.roles }
    requires inputs { network.now.inputs ≡ setup.roles.pins }
    requires outputs { length network.now.outputs ≡ setup.roles.outs }
    requires widths { All (λ pins. length pins ≡ setup.roles.pins) cycles.now }
    ensures { IfOk result (λ verdict. (wanted : List Cycle) → IsNetworkRun network.now cycles.now wanted
        → IsRunVerdict (By (picked_place order seed)) setup.entry cycles.now wanted verdict) }
{
    let chooser = Chooser::new(
        move |step: u64, count: u64| -> u64
            requires { 1 ≤ count }
            ensures place { result ≡ picked_place order seed step count }
            ensures below { result < count }
        { place_in(order, seed, step, count) },
    );
    compared::<_, Brand>(alloc, setup, network, cycles, chooser, Blank::new(1))
}

/// The place that an order picks among so many pending nets at a step.
fn place_in(order: Order, seed: u64, step: u64, count: u64) -> u64
    requires { 1 ≤ count }
    ensures place { result ≡ picked_place order seed step count }
    ensures below { result < count }
{
    match order {
        Order::First => first(step, count),
        Order::Last => last(step, count),
        Order::Seed => seeded(seed, step, count),
    }
}
