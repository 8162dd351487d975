//! Names of nets that are made of parts.
ghost use Rattle.std.specs.Prelude.{◌≡◌, ◌++◌, All, IfOk};
ghost use Rattle.std.specs.Fmt.{decimal};
ghost use Rattle.dom_base.specs.Names.{IsNetByte, IsNetName};

use dom_base::{NameBytes, NetName, OutOfMemory, append_number_to_name, append_to_name};
use std::alloc::Global;

/// The name of these bytes. The one error is out of memory.
pub fn fixed_name(alloc: Global, bytes: &[u8]) -> Result<NetName, OutOfMemory>
    requires { IsNetName bytes.now }
    ensures { IfOk result (λ name. name ≡ bytes.now) }
{
    Ok(NetName(NameBytes::from_slice(alloc, bytes)?))
}

/// The name of a front and a number in decimal digits. The one error is out of memory.
#[tactic(auto, using(crate::proofs::JoinedNames::joined_names))]
pub fn numbered_name(alloc: Global, front: &[u8], number: u32) -> Result<NetName, OutOfMemory>
    requires { All IsNetByte front.now }
    ensures { IfOk result (λ name. name ≡ front.now ++ decimal number) }
{
    let mut bytes = NameBytes::new(alloc);
    append_to_name(&mut bytes, front)?;
    append_number_to_name(&mut bytes, u64::from(number))?;
    Ok(NetName(bytes))
}

/// The name of these two parts. The one error is out of memory.
#[tactic(auto, using(crate::proofs::JoinedNames::joined_names))]
pub fn joined_name(alloc: Global, front: &[u8], rest: &[u8]) -> Result<NetName, OutOfMemory>
    requires front { IsNetName front.now }
    requires rest { All IsNetByte rest.now }
    ensures { IfOk result (λ name. name ≡ front.now ++ rest.now) }
{
    let mut bytes = NameBytes::new(alloc);
    append_to_name(&mut bytes, front)?;
    append_to_name(&mut bytes, rest)?;
    Ok(NetName(bytes))
}

/// A copy of a name, by the allocator of its bytes. The one error is out of memory.
pub fn copied(name: &NetName) -> Result<NetName, OutOfMemory>
    ensures { IfOk result (λ copy. copy ≡ name.now) }
{
    Ok(name.clone()?)
}
