//! Names of the nets of a latch.
ghost use Rattle.std.specs.Prelude.{◌≡◌, ◌++◌, All, IfOk};
ghost use Rattle.std.specs.Fmt.{decimal};
ghost use Rattle.dom_base.specs.Names.{IsNetByte, IsNetName};
ghost use Rattle.latch_bind.specs.HeldNames.{AreLatchPorts, AreNamesOfStage, AreSupplies};

use deck::{Circuit, NetAt, fixed_name, joined_name, numbered_name};
use dom_base::{NetName, OutOfMemory};
use std::alloc::Global;

/// The two supplies.
#[derive(Drop)]
pub struct SupplyNames {
    pub vdd: NetName,
    pub vss: NetName,
}

impl SupplyNames {
    /// `vdd` and `vss`.
    pub fn new(alloc: Global) -> Result<SupplyNames, OutOfMemory>
        ensures { IfOk result AreSupplies }
    {
        Ok(SupplyNames {
            vdd: fixed_name(alloc, b"vdd")?,
            vss: fixed_name(alloc, b"vss")?,
        })
    }

    /// `vdd`, which may be the first net.
    pub fn vdd_net(&self) -> NetAt<'_>
        ensures { result.name.now ≡ self.now.vdd }
    {
        NetAt::named(&self.vdd).at(0)
    }

    /// `vss`, which may be the second net.
    pub fn vss_net(&self) -> NetAt<'_>
        ensures { result.name.now ≡ self.now.vss }
    {
        NetAt::named(&self.vss).at(1)
    }
}

/// The supplies, and the clocks and resets of latches, which may stand in a circuit one after the other from the
/// net `first` on.
#[derive(Drop)]
pub struct LatchPorts {
    pub supplies: SupplyNames,
    pub master: NetName,
    pub master_opposite: NetName,
    pub slave: NetName,
    pub slave_opposite: NetName,
    pub reset: NetName,
    pub reset_opposite: NetName,
    pub first: u32,
}

impl LatchPorts {
    /// The names `lm`, `lmb`, `ls`, `lsb`, `rs` and `rsb`, from the place of `lm` in this circuit on.
    pub fn new(alloc: Global, circuit: &Circuit) -> Result<LatchPorts, OutOfMemory>
        ensures { IfOk result AreLatchPorts }
    {
        let (master, master_opposite) = fixed_names(alloc, b"lm", b"lmb")?;
        let (slave, slave_opposite) = fixed_names(alloc, b"ls", b"lsb")?;
        let (reset, reset_opposite) = fixed_names(alloc, b"rs", b"rsb")?;
        let supplies = SupplyNames::new(alloc)?;
        let first = NetAt::found(circuit, &master).number.unwrap_or(0);
        Ok(LatchPorts {
            supplies,
            master,
            master_opposite,
            slave,
            slave_opposite,
            reset,
            reset_opposite,
            first,
        })
    }

    /// The clock of masters, and its opposite.
    pub fn master_clocks(&self) -> ClockNets<'_>
        ensures clock { result.clock.name.now ≡ self.now.master }
        ensures opposite { result.opposite.name.now ≡ self.now.master_opposite }
    {
        ClockNets {
            clock: self.port(&self.master, 0),
            opposite: self.port(&self.master_opposite, 1),
        }
    }

    /// The clock of slaves, and its opposite.
    pub fn slave_clocks(&self) -> ClockNets<'_>
        ensures clock { result.clock.name.now ≡ self.now.slave }
        ensures opposite { result.opposite.name.now ≡ self.now.slave_opposite }
    {
        ClockNets {
            clock: self.port(&self.slave, 2),
            opposite: self.port(&self.slave_opposite, 3),
        }
    }

    /// The reset of the outputs that start at 0.
    pub fn reset_net(&self) -> NetAt<'_>
        ensures { result.name.now ≡ self.now.reset }
    {
        self.port(&self.reset, 4)
    }

    /// The reset of the outputs that start at 1.
    pub fn reset_opposite_net(&self) -> NetAt<'_>
        ensures { result.name.now ≡ self.now.reset_opposite }
    {
        self.port(&self.reset_opposite, 5)
    }

    /// The net of this name, which may stand so many places after the first.
    fn port<'a>(&self, name: &'a NetName, place: u32) -> NetAt<'a>
        ensures { result.name.now ≡ name.now }
    {
        NetAt::named(name).at(self.first.saturating_add(place))
    }
}

/// The names of these bytes. The one error is out of memory.
fn fixed_names(alloc: Global, bytes: &[u8], more: &[u8]) -> Result<(NetName, NetName), OutOfMemory>
    requires bytes { IsNetName bytes.now }
    requires more { IsNetName more.now }
    ensures one { IfOk result (λ names. names.0 ≡ bytes.now) }
    ensures other { IfOk result (λ names. names.1 ≡ more.now) }
{
    let one = fixed_name(alloc, bytes)?;
    let other = fixed_name(alloc, more)?;
    Ok((one, other))
}

/// The clock of a clocked inverter, and its opposite.
#[derive(Clone, Copy)]
pub struct ClockNets<'a> {
    pub clock: NetAt<'a>,
    pub opposite: NetAt<'a>,
}

/// The nets of a clocked inverter but its data, its clocks and the supplies: its output, and the nets
/// between its devices in series towards `vdd` and towards `vss`.
#[derive(Drop)]
pub struct StageNames {
    pub out: NetName,
    pub upper: NetName,
    pub lower: NetName,
}

impl StageNames {
    /// The names of stage `j` with outputs that begin with `front`.
    pub fn new(alloc: Global, front: &[u8], j: u32) -> Result<StageNames, OutOfMemory>
        requires { All IsNetByte front.now }
        ensures { IfOk result (AreNamesOfStage (front.now ++ decimal j)) }
    {
        let out = numbered_name(alloc, front, j)?;
        let upper = joined_name(alloc, out.as_bytes(), b"p")?;
        let lower = joined_name(alloc, out.as_bytes(), b"n")?;
        Ok(StageNames { out, upper, lower })
    }
}
