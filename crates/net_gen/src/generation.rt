//! Texts of networks that are generated.
ghost use Rattle.std.specs.Prelude.{◌≡◌, ◌≤◌, IfOk};
ghost use Rattle.blif_ast.specs.Printed.{printed};
ghost use Rattle.net_gen.specs.Generated.{generated};

use crate::drawn_network::network_of;
use dom_base::OutOfMemory;
use net_flatten::print_network;
use std::alloc::Global;

/// The text of a network of so many tables, 1 to 30,000, that is generated from a seed, in BLIF: a model
/// `gen` with the inputs `a0` to `a15`, tables `t0`, `t1` and so on of three inputs and two rows each, a
/// latch `q0`, `q1` and so on for each 16 tables, and as outputs the last 16 tables, or all. The same seed,
/// modulo 65,536, gives the same text. The one error is out of memory.
pub fn generate(alloc: Global, seed: u64, tables: u32) -> Result<Vec<u8>, OutOfMemory>
    requires some { 1 ≤ tables }
    requires few { tables ≤ 30000 }
    ensures { IfOk result (λ text. text.items ≡ printed (generated seed tables)) }
{
    let network = network_of(alloc, seed, tables)?;
    let text = print_network(alloc, &network)?;
    Ok(text)
}
