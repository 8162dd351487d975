//! Numbers of nets.
ghost use Rattle.std.specs.Prelude.{◌≡◌, IfOk, OnOk, is_ok, if◌then◌else◌, length, nat_eq, take};
ghost use Rattle.std.specs.Cmp.Lexicographic.{pointwise};
ghost use Rattle.std.specs.List.{IsDistinct};
ghost use Rattle.deck.specs.Nets.{net_number, with_net, with_nets};
ghost use Rattle.deck.specs.NetsAt.{StandsAt};
ghost use Rattle.deck.specs.Numbers.{AreNumbersOf, with_all};

use crate::names::copied;
use crate::net_at::NetAt;
use dom_base::{NameHash, NetName, OutOfMemory};
use indexmap::IndexSet;

/// The nets of a circuit by their names, in order of their numbers.
pub type NetSet = IndexSet<NetName, NameHash>;

/// The number of the net of this name, which is added at the end where it is new. A refusal adds nothing.
pub fn add(nets: &mut NetSet, name: &NetName) -> Result<usize, OutOfMemory>
    ensures number { IfOk result (λ i. i ≡ net_number nets.old.keys name.now) }
    ensures keys { nets.new.keys ≡ (if is_ok result then with_net nets.old.keys name.now else nets.old.keys) }
{
    let copy = copied(name)?;
    let (number, _) = nets.insert_full(copy)?;
    Ok(number)
}

/// The number of a net that stands at the number which is held for it. Where none is held, it is added at the
/// end where it is new. A refusal adds nothing.
#[tactic(auto, using(crate::proofs::KnownNumbers::known_numbers))]
fn number(nets: &mut NetSet, net: NetAt<'_>) -> Result<usize, OutOfMemory>
    requires stands { StandsAt nets.old.keys net.number net.name.now }
    requires distinct { IsDistinct (pointwise nat_eq) nets.old.keys }
    ensures number { IfOk result (λ i. i ≡ net_number nets.old.keys net.entry.name.now) }
    ensures keys { nets.new.keys ≡ (if is_ok result then with_net nets.old.keys net.entry.name.now else nets.old.keys) }
    ensures distinct { IsDistinct (pointwise nat_eq) nets.new.keys }
{
    if let Some(number) = net.number {
        return Ok(number as usize);
    }
    add(nets, net.name)
}

/// The numbers of a device's nets, each of which stands at the number that is held for it. After a refusal some
/// of the nets may stand at the end.
pub fn number_ends(
    nets: &mut NetSet,
    drain: NetAt<'_>,
    gate: NetAt<'_>,
    source: NetAt<'_>,
) -> Result<(usize, usize, usize), OutOfMemory>
    requires drain { StandsAt nets.old.keys drain.number drain.name.now }
    requires gate { StandsAt nets.old.keys gate.number gate.name.now }
    requires source { StandsAt nets.old.keys source.number source.name.now }
    requires distinct { IsDistinct (pointwise nat_eq) nets.old.keys }
    ensures numbers { IfOk result (AreNumbersOf nets.old.keys drain.entry.name.now gate.entry.name.now source.entry.name.now) }
    ensures keys { OnOk result (nets.new.keys ≡ with_nets nets.old.keys drain.entry.name.now gate.entry.name.now source.entry.name.now) }
    ensures begins { take (length nets.old.keys) nets.new.keys ≡ nets.old.keys }
{
    let drain = number(nets, drain)?;
    let gate = number(nets, gate)?;
    let source = number(nets, source)?;
    Ok((drain, gate, source))
}

/// Adds each of these names that is new, in order. After a refusal some may stand at the end.
pub fn add_all(nets: &mut NetSet, names: &[NetName]) -> Result<(), OutOfMemory>
    ensures { OnOk result (nets.new.keys ≡ with_all nets.old.keys names.now) }
{
    for name in names {
        add(nets, name)?;
    }
    Ok(())
}
