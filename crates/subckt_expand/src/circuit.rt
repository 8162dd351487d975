//! The circuit that a subcircuit stands for.
ghost use Rattle.std.specs.Prelude.{◌≡◌, ◌<◌, IfOk, length, nat_eq};
ghost use Rattle.std.specs.Cmp.Lexicographic.{pointwise};
ghost use Rattle.std.specs.List.{IsDistinct};
ghost use Rattle.deck.specs.DeckText.{bare_circuit};
ghost use Rattle.deck.specs.NamedDevices.{with_devices};
ghost use Rattle.subckt_expand.specs.Definitions.{port_names};
ghost use Rattle.subckt_expand.specs.Frames.{IsMade};
ghost use Rattle.subckt_expand.specs.Units.{definition_at, expansion_at};

use crate::expand::{Expanding, empty_row};
use crate::net::number;
use crate::units::Units;
use deck::{Circuit, Device, NetSet, Phase};
use dom_base::{Crowd, NetName, OutOfMemory};
use std::alloc::Global;

/// These names in order, each once. The one error is out of memory, or names that are crowded.
fn set_of(alloc: Global, crowd: &mut Crowd, names: &[NetName]) -> Result<NetSet, OutOfMemory>
    requires { IsDistinct (pointwise nat_eq) names.now }
    ensures { IfOk result (λ nets. nets.keys ≡ names.now) }
{
    crowd.begin_anew();
    let mut nets = NetSet::with_hasher(alloc, crowd.hash());
    for name in names {
        crowd.look_at(nets.as_slice())?;
        number(&mut nets, name.clone()?)?;
    }
    Ok(nets)
}

impl Units {
    /// The nets and the devices that the subcircuit of this number stands for, where `ports` are its
    /// ports. The one error is out of memory, or nets that are crowded.
    fn expanded(
        &self,
        alloc: Global,
        crowd: &mut Crowd,
        ports: NetSet,
        unit: usize,
    ) -> Result<(NetSet, Vec<Device>), OutOfMemory>
        requires there { unit < length self.now }
        requires ports { ports.keys ≡ port_names (definition_at self.now unit) }
        ensures { IfOk result (λ p. IsMade (port_names (definition_at self.now unit)) (expansion_at self.now unit).devices p.0.keys p.1.items) }
    {
        let units = self.closed.as_slice();
        let last = &units[unit];
        let slots = last.slots.nets.len();
        let mut numbers = Vec::new(alloc);
        numbers.push(empty_row(alloc, slots)?)?;
        let mut expanding = Expanding {
            alloc,
            units,
            main: unit,
            calls: Vec::new(alloc),
            ways: Vec::new(alloc),
            numbers,
            nets: ports,
            devices: Vec::new(alloc),
        };
        expanding.push_parts(crowd, unit)?;
        let Expanding { nets, devices, .. } = expanding;
        Ok((nets, devices))
    }

    /// The circuit that the subcircuit of this number stands for, with these phases. The one error is
    /// out of memory, or nets that are crowded.
    pub fn expand(
        &self,
        alloc: Global,
        crowd: &mut Crowd,
        phases: Vec<Phase>,
        unit: usize,
    ) -> Result<Circuit, OutOfMemory>
        requires { unit < length self.now }
        ensures { IfOk result (λ c. c ≡ with_devices
            (bare_circuit (definition_at self.now unit).name phases.items (port_names (definition_at self.now unit)))
            (expansion_at self.now unit).devices) }
    {
        let last = &self.closed[unit];
        let definition = &last.definition;
        let names = definition.port_names();
        let ports = names.len();
        let set = set_of(alloc, crowd, names)?;
        let (nets, devices) = self.expanded(alloc, crowd, set, unit)?;
        Ok(Circuit {
            name: definition.name.clone()?,
            phases,
            ports: ports as u32,
            nets,
            devices,
        })
    }
}
