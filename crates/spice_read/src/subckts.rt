//! The subcircuits of a deck, made card by card.
ghost use Rattle.std.specs.Prelude.{◌≡◌, ◌<◌, ◌+◌, ◌++◌, ◌∷◌, [], All, IfOk, OnOk, Some, None, false, map, not};
ghost use Rattle.std.specs.Str.{str_to_ascii_lowercase};
ghost use Rattle.dom_base.specs.Names.{IsNetName};
ghost use Rattle.deck.specs.DeckCards.{port_names, unit_word, word_at};
ghost use Rattle.deck.specs.DeckText.{bare_circuit};
ghost use Rattle.deck.specs.Nets.{IsCircuit};
ghost use Rattle.deck.specs.Numbers.{with_all};
ghost use Rattle.spice_read.specs.FlatSubckts.{LastFits, closed_with};
ghost use Rattle.spice_read.specs.ReadSubckts.{AnswersFault, CanClose, HasNames, IsCalledUnit, IsClosable, IsFinished, IsWordedCard, SubcktsData};
ghost use Rattle.spice_read.specs.ReadSubckts.{after_call, after_device, after_ends, after_opening, call_fault, called, calling_fault, end_fault, ending_fault};
ghost use Rattle.spice_read.specs.ReadSubckts.{fault_in, has_room_for, is_closed_name, next_fault, opening_fault, ports_fault, room_fault};
ghost use Rattle.spice_read.specs.ReadSubckts.{subckts_after};

use crate::DeckFault;
use crate::cards::{Card, Cards, Form};
use crate::crowds::Crowds;
use crate::subckt::{Subckt, flat_definition};
use crate::words::net_name;
use deck::{Circuit, DeckKind, MOST_DEPTH, MOST_DEVICES, MOST_PORTS, NetSet, Phase, copied};
use dom_base::{Crowd, Kind, NameHash, NetName, OutOfMemory};
use std::alloc::Global;
use std::marker::Model;
use std::mem;
use subckt_expand::{Definition, Units};

/// The last subcircuit: none, one that is open, or one that was closed and calls none.
#[derive(Drop)]
pub enum Last {
    Before,
    Open(Subckt),
    Closed(Circuit),
}

/// The subcircuits that were closed, and the last one, where it is open or is held as a circuit.
#[derive(Drop)]
pub struct Subckts {
    pub units: Units,
    pub last: Last,
}

impl Model for Subckts {
    ghost use Rattle.spice_read.specs.FlatSubckts.{LastFits, closed_with, open_in};
    ghost use Rattle.spice_read.specs.ReadSubckts.{SubcktsData};

    ghost Value = { SubcktsData };

    ghost view = { λ s. record { closed = closed_with s.units s.last; current = open_in s.last } };

    ghost invariant = { λ s. LastFits s.units s.last };
}

/// The words as nets, each once, in order of first appearance.
fn nets_of(alloc: Global, crowd: &mut Crowd, words: &[&[u8]]) -> Result<NetSet, OutOfMemory>
    requires { All (λ w. IsNetName (str_to_ascii_lowercase w.now)) words.now }
    ensures { IfOk result (λ nets. nets.keys ≡ with_all [] (map (λ w. str_to_ascii_lowercase w.now) words.now)) }
{
    crowd.begin_anew();
    let mut nets = NetSet::with_hasher(alloc, crowd.hash());
    for word in words {
        crowd.look_at(nets.as_slice())?;
        nets.insert(net_name(alloc, word)?)?;
    }
    Ok(nets)
}

/// The subcircuit that a `.subckt` opens, with its ports.
fn opened(
    alloc: Global,
    crowd: &mut Crowd,
    name: NetName,
    card: &Card<'_>,
) -> Result<Circuit, DeckFault>
    requires { HasNames 1 card.now }
    ensures opened { IfOk result (λ c. (ports_fault card.now ≡ None) × (c ≡ bare_circuit name [] (port_names card.now))) }
    ensures fault { AnswersFault result card.now.number (ports_fault card.now) }
{
    let nets = nets_of(alloc, crowd, card.ports())?;
    if nets.len() < card.ports().len() {
        return Err(card.fault(DeckKind::DuplicatePort));
    }
    if nets.len() > MOST_PORTS as usize {
        return Err(card.fault(DeckKind::TooMany));
    }
    let ports = nets.len() as u32;
    Ok(Circuit {
        name,
        phases: Vec::new(alloc),
        ports,
        nets,
        devices: Vec::new(alloc),
    })
}

/// Whether a subcircuit with so many devices has room for those of another that it calls, and is not
/// too deep.
fn has_room(devices: u32, called: &Definition) -> bool
    ensures { result ≡ has_room_for devices called.now }
{
    called.devices <= MOST_DEVICES
        && devices <= MOST_DEVICES - called.devices
        && called.depth < MOST_DEPTH
}

/// The number, the devices and the depth of the subcircuit that a card calls from one with so many devices,
/// or why it can't be called.
fn called(
    alloc: Global,
    units: &Units,
    devices: u32,
    card: &Card<'_>,
) -> Result<(usize, u32, u32), DeckFault>
    requires { HasNames 1 card.now }
    ensures called { IfOk result (λ u. IsCalledUnit units.now devices card.now u.0 u.1 u.2) }
    ensures fault { AnswersFault result card.now.number (call_fault devices (called units.now (unit_word card.now)) card.now) }
{
    let name = net_name(alloc, card.unit())?;
    let Some((unit, found)) = units.find(&name) else {
        return Err(card.fault(DeckKind::UnknownSubckt));
    };
    if !has_room(devices, found) {
        return Err(card.fault(DeckKind::TooMany));
    }
    if found.ports != card.passed().len() {
        return Err(card.fault(DeckKind::WrongCount));
    }
    Ok((unit, found.devices, found.depth))
}

/// Whether no closed subcircuit has this name.
fn is_new(units: &Units, name: &NetName) -> bool
    ensures { result ≡ not (is_closed_name units.now name.now) }
{
    units.find(name).is_none()
}

/// The subcircuit that a `.subckt` opens behind these, with its ports.
fn next_opened(
    alloc: Global,
    crowd: &mut Crowd,
    units: &Units,
    card: &Card<'_>,
) -> Result<Circuit, DeckFault>
    requires { HasNames 1 card.now }
    ensures new { OnOk result (is_closed_name units.now (word_at card.now 1) ≡ false) }
    ensures opened { IfOk result (λ c. (ports_fault card.now ≡ None) × (c ≡ bare_circuit (word_at card.now 1) [] (port_names card.now))) }
    ensures fault { AnswersFault result card.now.number (next_fault units.now card.now) }
{
    let name = net_name(alloc, card.word(1))?;
    if !is_new(units, &name) {
        return Err(card.fault(DeckKind::SecondSubckt));
    }
    opened(alloc, crowd, name, card)
}

/// Closes a subcircuit. The one error is out of memory, or names of subcircuits that are crowded.
fn close_unit(
    alloc: Global,
    crowd: &mut Crowd,
    units: &mut Units,
    definition: Definition,
) -> Result<(), OutOfMemory>
    requires { CanClose units.old definition }
    ensures { OnOk result (units.new ≡ units.old ++ definition ∷ []) }
{
    crowd.look_at(units.names.as_slice())?;
    let name = copied(&definition.name)?;
    units.close(alloc, name, definition)
}

/// Puts a last subcircuit in the place of another.
fn put(place: &mut Last, last: Last)
    ensures { place.new ≡ last }
{
    *place = last;
}

/// Closes the last subcircuit, where it is held as a circuit. The one error is out of memory.
fn settle(
    alloc: Global,
    crowd: &mut Crowd,
    units: &mut Units,
    last: Last,
) -> Result<(), OutOfMemory>
    requires { LastFits units.old last }
    ensures { OnOk result (units.new ≡ closed_with units.old last) }
{
    match last {
        Last::Closed(circuit) => {
            let definition = flat_definition(alloc, circuit)?;
            close_unit(alloc, crowd, units, definition)
        }
        Last::Before | Last::Open(_) => Ok(()),
    }
}

/// The circuit with these phases.
fn with_phases(circuit: Circuit, phases: Vec<Phase>) -> Circuit
    ensures phases { result ≡ record circuit { phases = phases.items } }
    ensures whole { IsCircuit circuit.ports circuit.nets circuit.devices }
{
    Circuit { phases, ..circuit }
}

/// The circuit that the last of these stands for, with these phases, or the fault of a text that ends at this
/// line without a subcircuit.
fn expand_last(
    alloc: Global,
    crowd: &mut Crowd,
    units: Units,
    phases: Vec<Phase>,
    line: u64,
) -> Result<Circuit, DeckFault>
    ensures circuit { IfOk result (λ c. IsFinished (record { closed = units; current = None }) phases.items c) }
    ensures fault { AnswersFault result line (end_fault (record { closed = units; current = None })) }
{
    let Some(last) = units.last() else {
        let kind = DeckKind::NoSubckt;
        return Err(DeckFault::At { line, kind });
    };
    Ok(units.expand(alloc, crowd, phases, last)?)
}

impl Subckts {
    /// None yet. Names are hashed so.
    pub fn new(alloc: Global, hash: NameHash) -> Subckts
        ensures closed { result.closed ≡ [] }
        ensures current { result.current ≡ None }
    {
        Subckts {
            units: Units::new(alloc, hash),
            last: Last::Before,
        }
    }

    /// Reads a card, or says why it can't be read.
    pub fn push(
        &mut self,
        alloc: Global,
        crowds: &mut Crowds,
        card: &Card<'_>,
    ) -> Result<(), DeckFault>
        requires words { IsWordedCard card.now }
        requires closable { IsClosable self.old }
        ensures clean { OnOk result (fault_in self.old card.now ≡ None) }
        ensures after { OnOk result (self.new ≡ subckts_after self.old card.now) }
        ensures fault { AnswersFault result card.now.number (fault_in self.old card.now) }
    {
        match card.form() {
            Ok(Form::Device(kind)) => self.push_device(alloc, crowds, kind, card),
            Ok(Form::Call) => self.push_call(alloc, &mut crowds.nets, card),
            Ok(Form::Subckt) => self.open(alloc, crowds, card),
            Ok(Form::Ends) => self.close(alloc, &mut crowds.units, card),
            Ok(Form::Skipped) => Ok(()),
            Err(kind) => Err(card.fault(kind)),
        }
    }

    fn push_device(
        &mut self,
        alloc: Global,
        crowds: &mut Crowds,
        kind: Kind,
        card: &Card<'_>,
    ) -> Result<(), DeckFault>
        requires { HasNames 5 card.now }
        ensures clean { OnOk result (room_fault self.old ≡ None) }
        ensures after { OnOk result (self.new ≡ after_device self.old kind card.now) }
        ensures fault { AnswersFault result card.now.number (room_fault self.old) }
    {
        let Last::Open(subckt) = &mut self.last else {
            return Err(card.fault(DeckKind::NoSubckt));
        };
        if subckt.devices() >= MOST_DEVICES {
            return Err(card.fault(DeckKind::TooMany));
        }
        subckt.look(&mut crowds.nets)?;
        subckt.push_device(alloc, &mut crowds.recent, kind, card)?;
        Ok(())
    }

    fn push_call(
        &mut self,
        alloc: Global,
        crowd: &mut Crowd,
        card: &Card<'_>,
    ) -> Result<(), DeckFault>
        requires { HasNames 1 card.now }
        ensures clean { OnOk result (calling_fault self.old card.now ≡ None) }
        ensures after { OnOk result (self.new ≡ after_call self.old card.now) }
        ensures fault { AnswersFault result card.now.number (calling_fault self.old card.now) }
    {
        let Last::Open(subckt) = mem::replace(&mut self.last, Last::Before) else {
            return Err(card.fault(DeckKind::NoSubckt));
        };
        let (unit, devices, depth) = called(alloc, &self.units, subckt.devices(), card)?;
        let subckt = subckt.with_call(alloc, crowd, unit, devices, depth, card)?;
        put(&mut self.last, Last::Open(subckt));
        Ok(())
    }

    fn open(&mut self, alloc: Global, crowds: &mut Crowds, card: &Card<'_>) -> Result<(), DeckFault>
        requires { HasNames 1 card.now }
        ensures clean { OnOk result (opening_fault self.old card.now ≡ None) }
        ensures after { OnOk result (self.new ≡ after_opening self.old card.now) }
        ensures fault { AnswersFault result card.now.number (opening_fault self.old card.now) }
    {
        if let Last::Open(_) = &self.last {
            return Err(card.fault(DeckKind::SecondSubckt));
        }
        let last = mem::replace(&mut self.last, Last::Before);
        settle(alloc, &mut crowds.units, &mut self.units, last)?;
        let circuit = next_opened(alloc, &mut crowds.nets, &self.units, card)?;
        put(&mut self.last, Last::Open(Subckt::Flat(circuit)));
        Ok(())
    }

    fn close(&mut self, alloc: Global, crowd: &mut Crowd, card: &Card<'_>) -> Result<(), DeckFault>
        requires { IsClosable self.old }
        ensures clean { OnOk result (ending_fault self.old ≡ None) }
        ensures after { OnOk result (self.new ≡ after_ends self.old) }
        ensures fault { AnswersFault result card.now.number (ending_fault self.old) }
    {
        match mem::replace(&mut self.last, Last::Before) {
            Last::Open(Subckt::Flat(circuit)) => {
                put(&mut self.last, Last::Closed(circuit));
                Ok(())
            }
            Last::Open(Subckt::Calling(definition)) => {
                close_unit(alloc, crowd, &mut self.units, definition)?;
                Ok(())
            }
            Last::Before | Last::Closed(_) => Err(card.fault(DeckKind::NoSubckt)),
        }
    }

    /// The circuit of a text whose cards were all read, or the fault of its end.
    pub fn finish(
        self,
        alloc: Global,
        crowd: &mut Crowd,
        cards: Cards<'_>,
    ) -> Result<Circuit, DeckFault>
        ensures circuit { IfOk result (λ c. IsFinished self cards.entry.phases c) }
        ensures fault { AnswersFault result cards.entry.left.number (end_fault self) }
    {
        let Cards { lines, phases, .. } = cards;
        let line = lines.number;
        let Subckts { units, last } = self;
        match last {
            Last::Open(_) => {
                let kind = DeckKind::NotClosed;
                Err(DeckFault::At { line, kind })
            }
            Last::Closed(circuit) => Ok(with_phases(circuit, phases)),
            Last::Before => expand_last(alloc, crowd, units, phases, line),
        }
    }
}
