//! The ports before the first pin.
ghost use Rattle.std.specs.Prelude.{◌≡◌, ◌<◌, ◌≤◌, ◌+◌, IfOk, slice_get, Some, []};
ghost use Rattle.dom_base.specs.Names.{IsNetName};
ghost use Rattle.deck.specs.Limits.{most_clocks, unclocked_count};
ghost use Rattle.deck.specs.Numbers.{with_all};
ghost use Rattle.deck.specs.Ports.{clock_ports, latch_ports, leading_ports};

use crate::limits::UNCLOCKED_COUNT;
use crate::names::fixed_name;
use crate::number::{NetSet, add};
use dom_base::{NameHash, OutOfMemory};
use std::alloc::Global;

/// The names of the clocks.
const CLOCK_PORTS: [&str; 4] = ["ck1", "ck2", "ck3", "ck4"];

/// The names of the clocks and resets of latches.
const LATCH_PORTS: [&str; 6] = ["lm", "lmb", "ls", "lsb", "rs", "rsb"];

/// The name of the clock at an index from 0.
fn clock_port(index: u8) -> &'static [u8]
    requires { index < most_clocks }
    ensures name { slice_get clock_ports index ≡ Some result.now }
    ensures good { IsNetName result.now }
{
    CLOCK_PORTS[index as usize].as_bytes()
}

/// The name of the clock or reset of latches at an index from 0.
fn latch_port(index: u8) -> &'static [u8]
    requires { index < 6 }
    ensures name { slice_get latch_ports index ≡ Some result.now }
    ensures good { IsNetName result.now }
{
    LATCH_PORTS[index as usize].as_bytes()
}

/// The name of a port, from 0, before the first pin of a circuit with so many clocks.
pub fn leading_port(clocks: u8, port: u8) -> &'static [u8]
    requires few { clocks ≤ most_clocks }
    requires within { port < clocks + unclocked_count }
    ensures name { slice_get (leading_ports clocks) port ≡ Some result.now }
    ensures good { IsNetName result.now }
{
    if port == 0 {
        b"vdd"
    } else if port == 1 {
        b"vss"
    } else if port - 2 < clocks {
        clock_port(port - 2)
    } else {
        latch_port(port - 2 - clocks)
    }
}

/// The ports before the first pin of a circuit with so many clocks, numbered in order from 0.
pub fn leading_nets(alloc: Global, hash: NameHash, clocks: u8) -> Result<NetSet, OutOfMemory>
    requires { clocks ≤ most_clocks }
    ensures { IfOk result (λ s. s.keys ≡ with_all [] (leading_ports clocks)) }
{
    let mut nets = NetSet::with_hasher(alloc, hash);
    for port in 0..clocks + UNCLOCKED_COUNT {
        add(&mut nets, &fixed_name(alloc, leading_port(clocks, port))?)?;
    }
    Ok(nets)
}
