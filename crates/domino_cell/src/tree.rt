//! The devices of a tree.
ghost use Rattle.std.specs.Prelude.{◌≡◌, ◌≤◌, ◌<◌, ◌+◌, ◌^◌, All, IfOk, OnOk, Some, length, slice_get};
ghost use Rattle.dom_base.specs.Names.{IsNetByte};
ghost use Rattle.deck.specs.CircuitGrowth.{Grew};
ghost use Rattle.deck.specs.Limits.{most_devices};
ghost use Rattle.deck.specs.NamedDevices.{with_devices};
ghost use Rattle.deck.specs.NetsAt.{StandsAt};
ghost use Rattle.deck.specs.Pushes.{pushed};
ghost use Rattle.sp_network.specs.Tree.{EachLeaf, inner_count, leaves};
ghost use Rattle.sp_network.specs.TypedTree.{tree_of};
ghost use Rattle.domino_cell.specs.NetsAt.{AreNumbersAt};
ghost use Rattle.deck.specs.Nets.{net_name};
ghost use Rattle.domino_cell.specs.NamedTrees.{AreInnerNames, named_tree};
ghost use Rattle.domino_cell.specs.Spelling.{spell};

use crate::numbers::{number_of, set_number};
use deck::{Circuit, NetAt, numbered_name, push_held};
use dom_base::{Kind, NetName, OutOfMemory, Polarity};
use sp_network::Sp;
use std::alloc::Global;

/// The names of the nets of a tree: gate by gate the net that gates it, and its inner nets by their
/// numbers. Where inner nets stand in the circuit already, in order, `first` is the number of the first
/// of them.
#[derive(Clone, Copy)]
pub struct TreeNames<'a> {
    pub gates: &'a [NetName],
    pub inner: &'a [NetName],
    pub first: Option<u32>,
}

impl<'a> TreeNames<'a> {
    /// Appends the devices of a tree from `top` to `bottom`: left parts first, and a series takes its
    /// inner net before its parts do, from the number `inner` on. Gives the number after the last
    /// one, and the number of `bottom` in the circuit. Gate by gate `numbers` has the number at which its net
    /// stands in the circuit where one is held, and takes the one at which it stands then. The one error is out of
    /// memory, and then some of the devices may stand at the end.
    #[tactic(auto, using(crate::proofs::PushedTrees::tree_counts))]
    pub fn push<S: Polarity>(
        &self,
        circuit: &mut Circuit,
        tree: &Sp<S>,
        top: NetAt<'_>,
        bottom: NetAt<'_>,
        inner: u32,
        numbers: &mut [Option<u32>],
    ) -> Result<(u32, u32), OutOfMemory>
        requires gates { EachLeaf (λ gate. gate < length self.now.gates.now) (tree_of tree.now) }
        requires room { length circuit.old.devices + leaves (tree_of tree.now) ≤ most_devices }
        requires inner_numbers { inner + inner_count (tree_of tree.now) ≤ length self.now.inner.now }
        requires inner_few { inner + inner_count (tree_of tree.now) < 2 ^ 32 }
        requires top { StandsAt circuit.old.nets top.number top.name.now }
        requires bottom { StandsAt circuit.old.nets bottom.number bottom.name.now }
        requires numbers { AreNumbersAt circuit.old.nets self.now.gates.now numbers.old }
        ensures next { IfOk result (λ p. p.0 ≡ inner + inner_count (tree_of tree.now)) }
        ensures devices { OnOk result (circuit.new ≡ with_devices circuit.old
            (spell S.KIND (net_name self.now.inner.now) (named_tree self.now.gates.now (tree_of tree.now)) top.entry.name.now bottom.entry.name.now inner)) }
        ensures count { OnOk result (length circuit.new.devices ≡ length circuit.old.devices + leaves (tree_of tree.now)) }
        ensures grew { Grew circuit.old circuit.new }
        ensures stands { IfOk result (λ p. slice_get circuit.new.nets p.1 ≡ Some bottom.entry.name.now) }
        ensures numbers { OnOk result (AreNumbersAt circuit.new.nets self.now.gates.now numbers.new) }
    {
        match tree {
            Sp::Leaf { gate, .. } => {
                let gate = *gate as usize;
                let source = self.push_leaf(circuit, S::KIND, gate, top, bottom, numbers)?;
                Ok((inner, source))
            }
            Sp::Series(left, right) => {
                let middle = self.inner_at(circuit, inner);
                let (next, number) = self.push(circuit, left, top, middle, inner + 1, numbers)?;
                let middle = middle.at(number);
                let bottom = bottom.checked(circuit);
                self.push(circuit, right, middle, bottom, next, numbers)
            }
            Sp::Parallel(left, right) => {
                let (next, number) = self.push(circuit, left, top, bottom, inner, numbers)?;
                let top = top.checked(circuit);
                let bottom = bottom.at(number);
                self.push(circuit, right, top, bottom, next, numbers)
            }
        }
    }

    /// Appends a device of this kind from `top` to `bottom`, which the net of this gate gates. Gives the number of `bottom` in the
    /// circuit, and `numbers` takes that of the net of the gate. The one error is out of memory.
    fn push_leaf(
        &self,
        circuit: &mut Circuit,
        kind: Kind,
        gate: usize,
        top: NetAt<'_>,
        bottom: NetAt<'_>,
        numbers: &mut [Option<u32>],
    ) -> Result<u32, OutOfMemory>
        requires gate { gate < length self.now.gates.now }
        requires room { length circuit.old.devices < most_devices }
        requires top { StandsAt circuit.old.nets top.number top.name.now }
        requires bottom { StandsAt circuit.old.nets bottom.number bottom.name.now }
        requires numbers { AreNumbersAt circuit.old.nets self.now.gates.now numbers.old }
        ensures devices { OnOk result (circuit.new
            ≡ pushed circuit.old kind top.entry.name.now (net_name self.now.gates.now gate) bottom.entry.name.now) }
        ensures count { OnOk result (length circuit.new.devices ≡ length circuit.old.devices + 1) }
        ensures grew { Grew circuit.old circuit.new }
        ensures stands { IfOk result (λ source. slice_get circuit.new.nets source ≡ Some bottom.entry.name.now) }
        ensures numbers { OnOk result (AreNumbersAt circuit.new.nets self.now.gates.now numbers.new) }
    {
        let net = NetAt {
            name: &self.gates[gate],
            number: number_of(numbers, gate),
        };
        let device = push_held(circuit, kind, top, net, bottom)?;
        set_number(numbers, gate, device.gate);
        Ok(device.source)
    }

    /// The inner net of this number, at its number in the circuit where it stands there already.
    fn inner_at(&self, circuit: &Circuit, inner: u32) -> NetAt<'_>
        requires { inner < length self.now.inner.now }
        ensures name { result.name.now ≡ net_name self.now.inner.now inner }
        ensures stands { StandsAt circuit.now.nets result.number result.name.now }
    {
        let net = NetAt {
            name: &self.inner[inner as usize],
            number: self.first.and_then(|first| first.checked_add(inner)),
        };
        net.checked(circuit)
    }
}

/// The names of the inner nets of a tree, which begin so, by their numbers. It fails only for want of memory.
pub fn inner_names<S: Polarity>(
    alloc: Global,
    front: &[u8],
    tree: &Sp<S>,
) -> Result<Vec<NetName>, OutOfMemory>
    requires front { All IsNetByte front.now }
    requires few { inner_count (tree_of tree.now) < 2 ^ 32 }
    ensures count { IfOk result (λ names. length names.items ≡ inner_count (tree_of tree.now)) }
    ensures names { IfOk result (λ names. AreInnerNames front.now names.items) }
{
    let count = inner_nets(tree);
    let mut names = Vec::with_capacity(alloc, count as usize)?;
    'inners: for inner in 0..count {
        let name = numbered_name(alloc, front, inner)?;
        names.push(name)?;
    }
    Ok(names)
}

/// The number of inner nets of a tree. It takes no memory.
fn inner_nets<S: Polarity>(tree: &Sp<S>) -> u32
    requires { inner_count (tree_of tree.now) < 2 ^ 32 }
    ensures { result ≡ inner_count (tree_of tree.now) }
{
    match tree {
        Sp::Leaf { .. } => 0,
        Sp::Series(left, right) => 1 + inner_nets(left) + inner_nets(right),
        Sp::Parallel(left, right) => inner_nets(left) + inner_nets(right),
    }
}
