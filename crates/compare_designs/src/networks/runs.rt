//! Runs of networks beside plain ones.
ghost use Rattle.std.specs.Prelude.{◌≡◌, length};
ghost use Rattle.net_run.specs.RunnerData.{RunsNetwork};

use comparison::Trouble;
use net_flatten::Network;
use net_run::Runner;
use plain_networks::{PlainCycle, PlainNetwork, cycle, drawn_stream, start_state};
use plain_texts::Draws;
use std::alloc::Global;

/// The most tables of a network that is run: the plain function tries all values of all tables.
const MOST_TABLES: usize = 8;

/// How many cycles a run has.
const CYCLES: usize = 4;

/// Whether a cycle gives these outputs and this state behind it.
fn same_cycle(runner: &mut Runner, network: &Network, pins: &[bool], wanted: &PlainCycle) -> bool
    requires runs { RunsNetwork network.now runner.old }
    requires pins { length pins.now ≡ network.now.inputs }
    ensures { RunsNetwork network.now runner.new }
{
    let outputs = runner.cycle(pins) == wanted.outputs.as_slice();
    outputs && runner.state() == wanted.next.as_slice()
}

/// How many cycles of a network were compared, where all are alike. A network with many tables isn't run.
pub fn same_run(
    alloc: Global,
    draws: &mut Draws,
    network: &Network,
    plain: &PlainNetwork,
) -> Result<Option<u64>, Trouble> {
    if plain.tables.len() > MOST_TABLES {
        return Ok(Some(0));
    }
    let stream = drawn_stream(alloc, draws, plain.inputs, CYCLES)?;
    let mut runner = Runner::new(alloc, network)?;
    let mut state = start_state(alloc, plain)?;
    let mut cycles = 0u64;
    for pins in stream.iter() {
        let Some(wanted) = cycle(alloc, plain, pins, &state)? else {
            return Ok(None);
        };
        if pins.len() != network.inputs as usize
            || !same_cycle(&mut runner, network, pins, &wanted)
        {
            return Ok(None);
        }
        state = wanted.next;
        cycles = cycles.saturating_add(1);
    }
    Ok(Some(cycles))
}
