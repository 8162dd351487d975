//! Names of the nets of a cell.
ghost use Rattle.std.specs.Prelude.{◌≡◌, ◌++◌, All, IfOk, OnOk, codes};
ghost use Rattle.std.specs.Fmt.{decimal};
ghost use Rattle.dom_base.specs.Names.{IsNetByte};
ghost use Rattle.domino_cell.specs.HeldNames.{AreNamesOfCell, AreNamesOfGate, AreNetsOfCell, StandInCircuit};
ghost use Rattle.domino_cell.specs.PushedNames.{inner_front};

use deck::{Circuit, NetAt, fixed_name, joined_name, numbered_name};
use dom_base::{NameBytes, NetName, OutOfMemory, append_number_to_name, append_to_name};
use std::alloc::Global;

/// The nets of a domino cell, and how its inner nets begin.
#[derive(Drop)]
pub struct CellNames {
    pub vdd: NetName,
    pub vss: NetName,
    pub clock: NetName,
    pub dynamic: NetName,
    pub output: NetName,
    pub foot: NetName,
    pub front: NetName,
}

impl CellNames {
    /// The nets of cell `k` on the clock of this number.
    pub fn new(alloc: Global, clock: u8, k: u32) -> Result<CellNames, OutOfMemory>
        ensures { IfOk result (AreNamesOfCell clock k) }
    {
        let (vdd, vss) = supply_names(alloc)?;
        let clock = numbered_name(alloc, b"ck", u32::from(clock))?;
        let own = OwnNames::new(alloc, k)?;
        Ok(CellNames {
            vdd,
            vss,
            clock,
            dynamic: own.dynamic,
            output: own.output,
            foot: own.foot,
            front: own.front,
        })
    }

    /// Renames the nets to those of cell `k` on the clock of this number, with the same supplies. After a refusal
    /// some may have their new names.
    pub fn renumber(&mut self, alloc: Global, clock: u8, k: u32) -> Result<(), OutOfMemory>
        requires vdd { self.old.vdd ≡ codes "vdd" }
        requires vss { self.old.vss ≡ codes "vss" }
        ensures { OnOk result (AreNamesOfCell clock k self.new) }
    {
        let number = number_bytes(alloc, k)?;
        self.rename(alloc, clock, number.as_slice())?;
        Ok(())
    }

    /// Renames the nets to those of the cell of these digits on the clock of this number, with the same supplies. After a
    /// refusal some may have their new names.
    fn rename(&mut self, alloc: Global, clock: u8, digits: &[u8]) -> Result<(), OutOfMemory>
        requires { All IsNetByte digits.now }
        ensures vdd { self.new.vdd ≡ self.old.vdd }
        ensures vss { self.new.vss ≡ self.old.vss }
        ensures clock { OnOk result (self.new.clock ≡ codes "ck" ++ decimal clock) }
        ensures dynamic { OnOk result (self.new.dynamic ≡ codes "d" ++ digits.now) }
        ensures output { OnOk result (self.new.output ≡ codes "z" ++ digits.now) }
        ensures foot { OnOk result (self.new.foot ≡ codes "f" ++ digits.now) }
        ensures front { OnOk result (self.new.front ≡ codes "t" ++ digits.now ++ codes "_") }
    {
        self.clock = numbered_name(alloc, b"ck", u32::from(clock))?;
        self.dynamic = joined_name(alloc, b"d", digits)?;
        self.output = joined_name(alloc, b"z", digits)?;
        self.foot = joined_name(alloc, b"f", digits)?;
        let tree = joined_name(alloc, b"t", digits)?;
        self.front = longer_name(tree, b"_")?;
        Ok(())
    }

    /// The nets of these names in a circuit whose first ports may be the supplies and the clocks.
    pub fn nets_at(&self, circuit: &Circuit, clock: u8) -> CellNetsAt<'_>
        ensures named { AreNetsOfCell self.now result }
        ensures stand { StandInCircuit circuit.now.nets result }
    {
        CellNetsAt {
            vdd: NetAt::expected(circuit, &self.vdd, 0),
            vss: NetAt::expected(circuit, &self.vss, 1),
            clock: NetAt::expected(circuit, &self.clock, 1 + u32::from(clock)),
            dynamic: NetAt::named(&self.dynamic),
            output: NetAt::named(&self.output),
            foot: NetAt::named(&self.foot),
        }
    }
}

/// The nets of a cell that no other cell has, and how its inner nets begin.
#[derive(Drop)]
struct OwnNames {
    dynamic: NetName,
    output: NetName,
    foot: NetName,
    front: NetName,
}

impl OwnNames {
    /// Those of cell `k`.
    fn new(alloc: Global, k: u32) -> Result<OwnNames, OutOfMemory>
        ensures dynamic { IfOk result (λ names. names.dynamic ≡ codes "d" ++ decimal k) }
        ensures output { IfOk result (λ names. names.output ≡ codes "z" ++ decimal k) }
        ensures foot { IfOk result (λ names. names.foot ≡ codes "f" ++ decimal k) }
        ensures front { IfOk result (λ names. names.front ≡ inner_front k) }
    {
        let dynamic = numbered_name(alloc, b"d", k)?;
        let output = numbered_name(alloc, b"z", k)?;
        let foot = numbered_name(alloc, b"f", k)?;
        let front = tree_front(alloc, k)?;
        Ok(OwnNames {
            dynamic,
            output,
            foot,
            front,
        })
    }
}

/// The names of both supplies.
fn supply_names(alloc: Global) -> Result<(NetName, NetName), OutOfMemory>
    ensures vdd { IfOk result (λ names. names.0 ≡ codes "vdd") }
    ensures vss { IfOk result (λ names. names.1 ≡ codes "vss") }
{
    let vdd = fixed_name(alloc, b"vdd")?;
    let vss = fixed_name(alloc, b"vss")?;
    Ok((vdd, vss))
}

/// How the inner nets of cell `k` begin.
fn tree_front(alloc: Global, k: u32) -> Result<NetName, OutOfMemory>
    ensures { IfOk result (λ front. front ≡ inner_front k) }
{
    let tree = numbered_name(alloc, b"t", k)?;
    joined_name(alloc, tree.as_bytes(), b"_")
}

/// The nets of a domino cell but the inner ones, with the numbers that they may have.
#[derive(Clone, Copy)]
pub struct CellNetsAt<'a> {
    pub vdd: NetAt<'a>,
    pub vss: NetAt<'a>,
    pub clock: NetAt<'a>,
    pub dynamic: NetAt<'a>,
    pub output: NetAt<'a>,
    pub foot: NetAt<'a>,
}

/// The supplies, and how the inner nets of a static gate begin.
#[derive(Drop)]
pub struct GateNames {
    pub vdd: NetName,
    pub vss: NetName,
    pub upper: NetName,
    pub lower: NetName,
}

impl GateNames {
    /// The names for the output `out`.
    pub fn new(alloc: Global, out: &NetName) -> Result<GateNames, OutOfMemory>
        ensures { IfOk result (AreNamesOfGate out.now) }
    {
        Ok(GateNames {
            vdd: fixed_name(alloc, b"vdd")?,
            vss: fixed_name(alloc, b"vss")?,
            upper: joined_name(alloc, out.as_bytes(), b"_p")?,
            lower: joined_name(alloc, out.as_bytes(), b"_n")?,
        })
    }
}

/// The decimal digits of a number, which may stand in a name.
#[tactic(auto, using(deck::proofs::JoinedNames::joined_names))]
fn number_bytes(alloc: Global, number: u32) -> Result<NameBytes, OutOfMemory>
    ensures digits { IfOk result (λ bytes. bytes.items ≡ decimal number) }
    ensures good { IfOk result (λ bytes. All IsNetByte bytes.items) }
{
    let mut bytes = NameBytes::new(alloc);
    append_number_to_name(&mut bytes, u64::from(number))?;
    Ok(bytes)
}

/// A name with more bytes behind it.
#[tactic(auto, using(deck::proofs::JoinedNames::joined_names))]
fn longer_name(name: NetName, rest: &[u8]) -> Result<NetName, OutOfMemory>
    requires { All IsNetByte rest.now }
    ensures { IfOk result (λ longer. longer ≡ name ++ rest.now) }
{
    name.as_bytes();
    let mut bytes = name.0;
    append_to_name(&mut bytes, rest)?;
    Ok(NetName(bytes))
}
