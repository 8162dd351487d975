//! Nets by their names, with the numbers that they may have.
ghost use Rattle.std.specs.Prelude.{◌≡◌, ℕ, List, None, Some, slice_get};
ghost use Rattle.deck.specs.NetsAt.{StandsAt};

use crate::Circuit;
use dom_base::NetName;

/// A net by its name, and the number that it may have in a circuit. Where another net or none has
/// this number, the net is looked up by its name.
#[derive(Clone, Copy)]
pub struct NetAt<'a> {
    pub name: &'a NetName,
    pub number: Option<u32>,
}

impl<'a> NetAt<'a> {
    /// The net of this name, whose number is not known.
    pub fn named(name: &'a NetName) -> NetAt<'a>
        ensures name { result.name.now ≡ name.now }
        ensures number { result.number ≡ None }
        ensures stands { (nets : List (List ℕ)) → StandsAt nets result.number result.name.now }
    {
        NetAt { name, number: None }
    }

    /// The net of this name, at its number where the circuit has the net.
    pub fn found(circuit: &Circuit, name: &'a NetName) -> NetAt<'a>
        ensures name { result.name.now ≡ name.now }
        ensures stands { StandsAt circuit.now.nets result.number result.name.now }
    {
        let net = NetAt::named(name);
        match circuit.nets.get_index_of(name) {
            Some(number) => net.at(number as u32),
            None => net,
        }
    }

    /// The net of this name, at this number only where it stands at it in this circuit.
    pub fn expected(circuit: &Circuit, name: &'a NetName, number: u32) -> NetAt<'a>
        ensures name { result.name.now ≡ name.now }
        ensures stands { StandsAt circuit.now.nets result.number result.name.now }
    {
        NetAt::named(name).at(number).checked(circuit)
    }

    /// The same net, which may stand at this number.
    pub fn at(self, number: u32) -> NetAt<'a>
        ensures name { result.name.now ≡ self.entry.name.now }
        ensures number { result.number ≡ Some number }
        ensures stands { (nets : List (List ℕ)) → slice_get nets number ≡ Some self.entry.name.now
            → StandsAt nets result.number result.name.now }
    {
        NetAt {
            name: self.name,
            number: Some(number),
        }
    }

    /// The same net, at its number only where it stands at it in this circuit.
    pub fn checked(self, circuit: &Circuit) -> NetAt<'a>
        ensures name { result.name.now ≡ self.entry.name.now }
        ensures stands { StandsAt circuit.now.nets result.number result.name.now }
    {
        NetAt {
            name: self.name,
            number: self.number_in(circuit.nets.as_slice()),
        }
    }

    /// The number of the net, where the net stands at it among these.
    fn number_in(self, nets: &[NetName]) -> Option<u32>
        ensures { StandsAt nets.now result self.entry.name.now }
    {
        let number = self.number?;
        let there = nets.get(number as usize)?;
        if there == self.name {
            Some(number)
        } else {
            None
        }
    }
}
