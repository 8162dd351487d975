//! Numbers of nets.
ghost use Rattle.std.specs.Prelude.{◌≡◌, ◌++◌, ◌∷◌, IfOk, OnErr, OnOk};
ghost use Rattle.deck.specs.Nets.{net_number, with_net};

use deck::NetSet;
use dom_base::{NameBytes, NetName, OutOfMemory, append_to_name};
use std::alloc::Global;

/// The number of a net, which is added at the end where it is new. The one error is out of memory, and it adds nothing.
pub fn number(nets: &mut NetSet, name: NetName) -> Result<usize, OutOfMemory>
    ensures number { IfOk result (λ i. i ≡ net_number nets.old.keys name) }
    ensures keys { OnOk result (nets.new.keys ≡ with_net nets.old.keys name) }
    ensures kept { OnErr result (nets.new.keys ≡ nets.old.keys) }
{
    let (number, _) = nets.insert_full(name)?;
    Ok(number)
}

/// The name of an inner net of a call: the name of the call, `.` and the net's own name.
#[tactic(auto, using(crate::proofs::InnerNames::inner_names))]
pub fn inner_name(alloc: Global, call: &NetName, own: &NetName) -> Result<NetName, OutOfMemory>
    ensures { IfOk result (λ name. name ≡ call.now ++ 46 ∷ own.now) }
{
    let call_size = call.as_bytes().len();
    let own_size = own.as_bytes().len();
    let mut bytes = NameBytes::with_capacity(alloc, call_size + own_size + 1)?;
    append_to_name(&mut bytes, call.as_bytes())?;
    append_to_name(&mut bytes, b".")?;
    append_to_name(&mut bytes, own.as_bytes())?;
    Ok(NetName(bytes))
}
