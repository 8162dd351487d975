//! The subcircuits that were closed.
ghost use Rattle.std.specs.Prelude.{◌≡◌, ◌<◌, ◌+◌, ◌++◌, ◌∷◌, [], OnOk, MatchOption, length, false, nat_eq};
ghost use Rattle.std.specs.Cmp.Lexicographic.{pointwise};
ghost use Rattle.std.specs.List.{list_any};
ghost use Rattle.deck.specs.Nets.{net_number};
ghost use Rattle.subckt_expand.specs.Units.{IsClosed, definition_at, names_of};

use crate::definition::Definition;
use crate::net::number;
use crate::slots::Slots;
use deck::NetSet;
use dom_base::{NameHash, NetName, OutOfMemory};
use std::alloc::Global;
use std::marker::Model;

/// A subcircuit that was closed, with the slots of its nets, and whether a port has a `.` in its name.
#[derive(Drop)]
pub struct Unit {
    pub definition: Definition,
    pub slots: Slots,
    pub dotted: bool,
}

impl Model for Unit {
    ghost use Rattle.subckt_expand.specs.Units.{UnitData};

    ghost Value = { UnitData };

    ghost view = { λ u. record { definition = u.definition; slots = u.slots; dotted = u.dotted } };
}

/// The subcircuits that were closed, in the order of their text: the place of each is its number.
#[derive(Drop)]
pub struct Units {
    pub names: NetSet,
    pub closed: Vec<Unit>,
}

impl Model for Units {
    ghost use Rattle.std.specs.Prelude.{List, ◌≡◌};
    ghost use Rattle.subckt_expand.specs.Definitions.{DefinitionData};
    ghost use Rattle.subckt_expand.specs.Units.{AreUnits, definitions, names_of};

    ghost Value = { List DefinitionData };

    ghost view = { λ u. definitions u.closed.items };

    ghost invariant = { λ u. AreUnits u.closed.items × (u.names.keys ≡ names_of (definitions u.closed.items)) };
}

impl Units {
    /// None yet. Their names are hashed so.
    pub fn new(alloc: Global, hash: NameHash) -> Units
        ensures { result ≡ [] }
    {
        Units {
            names: NetSet::with_hasher(alloc, hash),
            closed: Vec::new(alloc),
        }
    }

    /// The number of the subcircuit of this name, and the subcircuit.
    pub fn find(&self, name: &NetName) -> Option<(usize, &Definition)>
        ensures { MatchOption result (net_number (names_of self.now) name.now ≡ length self.now)
            (λ p. (p.0 ≡ net_number (names_of self.now) name.now) × (p.0 < length self.now) × (p.1.now ≡ definition_at self.now p.0)) }
    {
        let number = self.names.get_index_of(name)?;
        let unit = &self.closed[number];
        Some((number, &unit.definition))
    }

    /// The number of the last one, if there is one.
    pub fn last(&self) -> Option<usize>
        ensures { MatchOption result (length self.now ≡ 0) (λ last. length self.now ≡ last + 1) }
    {
        self.closed.len().checked_sub(1)
    }

    /// Closes a subcircuit. The one error is out of memory.
    pub fn close(
        &mut self,
        alloc: Global,
        name: NetName,
        definition: Definition,
    ) -> Result<(), OutOfMemory>
        requires same { name ≡ definition.name }
        requires new { list_any (pointwise nat_eq name) (names_of self.old) ≡ false }
        requires closed { IsClosed (self.old ++ definition ∷ []) (length self.old) definition }
        ensures { OnOk result (self.new ≡ self.old ++ definition ∷ []) }
    {
        let slots = Slots::of_definition(alloc, self.closed.as_slice(), &definition)?;
        let dotted = definition.has_dotted_port();
        self.closed.reserve(1)?;
        number(&mut self.names, name)?;
        self.closed
            .push(Unit {
                definition,
                slots,
                dotted,
            })
            .unwrap();
        Ok(())
    }
}
