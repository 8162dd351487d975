//! The command `flat FILE`: the network of a file as one model.
ghost use Rattle.std.specs.Prelude.{◌≡◌, ◌≤◌, IfOk, IsErrOf, length};
ghost use Rattle.blif_ast.specs.Printed.{printed};
ghost use Rattle.dom_io.specs.Held.{file_limit};
ghost use Rattle.network.specs.NetworkData.{NetworkData};
ghost use Rattle.net_flatten.specs.OneModel.{file_of};
ghost use Rattle.command_answers.specs.Networks.{HasNetwork};
ghost use Rattle.command_answers.specs.declared.answer.Ending.TheVariants.{Done};
ghost use Rattle.trace_tool.specs.CosimRefusals.{IsUnflattened};
ghost use Rattle.trace_tool.specs.declared.fault.TraceFault.{TraceFault as Fault};

use crate::answer::{Answer, Ending};
use net_flatten::print_network;
use std::alloc::Global;
use trace_tool::{TraceFault, network_of_text};

/// The network of these bytes, which are those of a file, as one model.
pub fn flat(alloc: Global, bytes: &[u8]) -> Result<Answer, TraceFault>
    requires within { length bytes.now ≤ file_limit }
    ensures text { IfOk result (λ answer. (network : NetworkData) × HasNetwork bytes.now network
        × (answer.text.items ≡ printed (file_of network)) × (answer.ending ≡ Done)) }
    ensures refused { (why : Fault) → IsErrOf result why → IsUnflattened bytes.now why }
{
    let network = network_of_text(alloc, bytes)?;
    let text = print_network(alloc, &network)?;
    let ending = Ending::Done;
    Ok(Answer { text, ending })
}
