//! Cards: the devices of a deck, with nets by their names.
use crate::cells::{PlainCell, PlainGate, PlainStyle, TreeItem};
use crate::forest::PlainEnd;
use dom_base::Kind;
use plain_networks::PlainNetwork;
use std::alloc::{AllocError, Global};

/// A device between the nets of these names.
#[derive(Drop)]
pub struct Card {
    pub kind: Kind,
    pub drain: String,
    pub gate: String,
    pub source: String,
}

/// A name with each byte but lower-case letters and digits as `_` and two hexadecimal digits.
pub fn escaped(alloc: Global, name: &str) -> Result<String, AllocError> {
    let mut text = String::new(alloc);
    for byte in name.as_bytes() {
        let byte = *byte;
        if byte.is_ascii_lowercase() || byte.is_ascii_digit() {
            write!(text, "{}", char::from(byte))?;
        } else {
            write!(text, "_{byte:02x}")?;
        }
    }
    Ok(text)
}

/// Letters and a number behind them.
pub fn numbered(alloc: Global, letters: &str, number: usize) -> Result<String, AllocError> {
    format!(in alloc; "{letters}{number}")
}

/// Letters and an escaped name behind them.
fn prefixed(alloc: Global, letters: &str, name: &str) -> Result<String, AllocError> {
    let escape = escaped(alloc, name)?;
    format!(in alloc; "{letters}{escape}")
}

/// The names of the pins, `i_` and the escaped names of the inputs.
pub fn pin_names(alloc: Global, network: &PlainNetwork) -> Result<Vec<String>, AllocError> {
    let mut names = Vec::new(alloc);
    for name in network.names.iter().take(network.inputs) {
        names.push(prefixed(alloc, "i_", name.as_str())?)?;
    }
    Ok(names)
}

/// The names of the outputs, `o_` and their escaped names.
pub fn output_names(alloc: Global, network: &PlainNetwork) -> Result<Vec<String>, AllocError> {
    let mut names = Vec::new(alloc);
    for signal in network.outputs.iter() {
        let name = network.names.get(*signal).map_or("", |name| name.as_str());
        names.push(prefixed(alloc, "o_", name)?)?;
    }
    Ok(names)
}

/// The nets of the sinks: the outputs, and then `xJ` of each latch.
pub fn sink_nets(alloc: Global, network: &PlainNetwork) -> Result<Vec<String>, AllocError> {
    let mut names = output_names(alloc, network)?;
    for index in 0..network.latches.len() {
        names.push(numbered(alloc, "x", index)?)?;
    }
    Ok(names)
}

/// The cards of a deck, and how many there are up to the end of each group.
#[derive(Drop)]
pub struct GroupedCards {
    pub cards: Vec<Card>,
    pub ends: Vec<usize>,
}

/// Cards that are added in order, with the names of the pins.
#[derive(Drop)]
pub struct Cards {
    alloc: Global,
    pins: Vec<String>,
    pub grouped: GroupedCards,
}

/// The nets of a side of a cell: its clock, its dynamic net, its foot, and what the names of inner nets begin with.
#[derive(Clone, Copy)]
struct SideNets<'a> {
    clock: &'a str,
    dynamic: &'a str,
    foot: &'a str,
    inner: &'a str,
}

impl Cards {
    /// No cards of a network yet.
    pub fn new(alloc: Global, network: &PlainNetwork) -> Result<Cards, AllocError> {
        let pins = pin_names(alloc, network)?;
        Ok(Cards {
            alloc,
            pins,
            grouped: GroupedCards {
                cards: Vec::new(alloc),
                ends: Vec::new(alloc),
            },
        })
    }

    fn add(&mut self, kind: Kind, drain: &str, gate: &str, source: &str) -> Result<(), AllocError> {
        let card = card_of(self.alloc, kind, drain, gate, source)?;
        self.grouped.cards.push(card)?;
        Ok(())
    }

    /// Ends a group.
    pub fn end_group(&mut self) -> Result<(), AllocError> {
        let end = self.grouped.cards.len();
        self.grouped.ends.push(end)?;
        Ok(())
    }

    pub fn add_inverter(&mut self, gate: &str, out: &str) -> Result<(), AllocError> {
        self.add(Kind::P, out, gate, "vdd")?;
        self.add(Kind::N, out, gate, "vss")
    }

    /// The net of a rail of a leaf: its own net, or `cP`.
    pub fn rail(&self, leaf: usize, plus: bool) -> Result<String, AllocError> {
        if !plus {
            return numbered(self.alloc, "c", leaf);
        }
        match self.pins.get(leaf) {
            Some(pin) => String::from_str(self.alloc, pin.as_str()),
            None => {
                let latch = leaf.saturating_sub(self.pins.len());
                numbered(self.alloc, "q", latch)
            }
        }
    }

    fn gate(&self, gate: PlainGate) -> Result<String, AllocError> {
        match gate {
            PlainGate::Rail(leaf, plus) => self.rail(leaf, plus),
            PlainGate::Output(cell) => numbered(self.alloc, "z", cell),
        }
    }

    /// Spells a tree between two nets, and gives what stands behind it of the items and the number of the next
    /// inner net. The names of inner nets begin with these letters.
    fn spell<'a>(
        &mut self,
        letters: &str,
        tree: &'a [TreeItem],
        top: &str,
        bottom: &str,
        inner: usize,
        fuel: usize,
    ) -> Result<(&'a [TreeItem], usize), AllocError> {
        let [item, rest @ ..] = tree else {
            return Ok((tree, inner));
        };
        if fuel == 0 {
            return Ok((tree, inner));
        }
        match *item {
            TreeItem::Device(gate) => {
                let gate = self.gate(gate)?;
                self.add(Kind::N, top, gate.as_str(), bottom)?;
                Ok((rest, inner))
            }
            TreeItem::Series => {
                let middle = format!(in self.alloc; "{letters}_{inner}")?;
                let next = inner.saturating_add(1);
                let (rest, next) = self.spell(letters, rest, top, middle.as_str(), next, fuel - 1)?;
                self.spell(letters, rest, middle.as_str(), bottom, next, fuel - 1)
            }
            TreeItem::Parallel => {
                let (rest, next) = self.spell(letters, rest, top, bottom, inner, fuel - 1)?;
                self.spell(letters, rest, top, bottom, next, fuel - 1)
            }
        }
    }

    /// A side of a cell. The names of its nets begin with these letters.
    fn add_side(
        &mut self,
        number: usize,
        cell: &PlainCell,
        tree: &[TreeItem],
        letters: (&str, &str, &str),
    ) -> Result<(), AllocError> {
        let alloc = self.alloc;
        let clock = numbered(alloc, "ck", cell.clock)?;
        let dynamic = numbered(alloc, letters.0, number)?;
        let foot = numbered(alloc, letters.1, number)?;
        let inner = numbered(alloc, letters.2, number)?;
        let nets = SideNets {
            clock: clock.as_str(),
            dynamic: dynamic.as_str(),
            foot: foot.as_str(),
            inner: inner.as_str(),
        };
        self.add_side_cards(number, cell.style, tree, nets)
    }

    /// What precharges the dynamic net of a side, the keeper or what precharges its inner nets, its tree and its
    /// foot.
    fn add_side_cards(
        &mut self,
        number: usize,
        style: PlainStyle,
        tree: &[TreeItem],
        nets: SideNets<'_>,
    ) -> Result<(), AllocError> {
        self.add(Kind::P, nets.dynamic, nets.clock, "vdd")?;
        match style {
            PlainStyle::Keeper => self.add_keeper(number, nets)?,
            PlainStyle::Precharge => self.add_precharge(tree, nets)?,
        }
        self.spell(nets.inner, tree, nets.dynamic, nets.foot, 0, tree.len())?;
        self.add(Kind::N, nets.foot, nets.clock, "vss")
    }

    fn add_keeper(&mut self, number: usize, nets: SideNets<'_>) -> Result<(), AllocError> {
        let output = numbered(self.alloc, "z", number)?;
        self.add(Kind::Keep, nets.dynamic, output.as_str(), "vdd")
    }

    /// What precharges the inner nets of a side, of which each series in its tree has one.
    fn add_precharge(&mut self, tree: &[TreeItem], nets: SideNets<'_>) -> Result<(), AllocError> {
        let count = tree
            .iter()
            .filter(|item| **item == TreeItem::Series)
            .count();
        for index in 0..count {
            let net = format!(in self.alloc; "{}_{index}", nets.inner)?;
            self.add(Kind::P, net.as_str(), nets.clock, "vdd")?;
        }
        Ok(())
    }

    /// The static pair of the dynamic nets of a cell: an inverter, or of a compound cell the pair of their series.
    fn add_pair(&mut self, number: usize, cell: &PlainCell, out: &str) -> Result<(), AllocError> {
        let alloc = self.alloc;
        let left = numbered(alloc, "d", number)?;
        if cell.right.is_none() {
            return self.add_inverter(left.as_str(), out);
        }
        let right = numbered(alloc, "e", number)?;
        let middle = format!(in alloc; "{out}_n0")?;
        self.add_compound_pair(left.as_str(), right.as_str(), middle.as_str(), out)
    }

    fn add_compound_pair(
        &mut self,
        left: &str,
        right: &str,
        middle: &str,
        out: &str,
    ) -> Result<(), AllocError> {
        self.add(Kind::P, out, left, "vdd")?;
        self.add(Kind::P, out, right, "vdd")?;
        self.add(Kind::N, out, left, middle)?;
        self.add(Kind::N, middle, right, "vss")
    }

    pub fn add_cell(&mut self, number: usize, cell: &PlainCell) -> Result<(), AllocError> {
        self.add_side(number, cell, &cell.tree, ("d", "f", "t"))?;
        if let Some(right) = &cell.right {
            self.add_side(number, cell, right, ("e", "g", "u"))?;
        }
        let output = numbered(self.alloc, "z", number)?;
        self.add_pair(number, cell, output.as_str())
    }

    /// A half of a latch: `out` takes the opposite of `data` while the net `open` is 1 and `shut` is 0.
    fn add_half(
        &mut self,
        out: &str,
        data: &str,
        open: &str,
        shut: &str,
    ) -> Result<(), AllocError> {
        let upper = format!(in self.alloc; "{out}p")?;
        self.add(Kind::P, out, shut, upper.as_str())?;
        self.add(Kind::P, upper.as_str(), data, "vdd")?;
        let lower = format!(in self.alloc; "{out}n")?;
        self.add(Kind::N, out, open, lower.as_str())?;
        self.add(Kind::N, lower.as_str(), data, "vss")
    }

    pub fn add_latch(&mut self, number: usize, init: bool) -> Result<(), AllocError> {
        let alloc = self.alloc;
        let master = numbered(alloc, "m", number)?;
        let slave = numbered(alloc, "q", number)?;
        let data = numbered(alloc, "x", number)?;
        self.add_halves(master.as_str(), slave.as_str(), data.as_str(), init)
    }

    fn add_halves(
        &mut self,
        master: &str,
        slave: &str,
        data: &str,
        init: bool,
    ) -> Result<(), AllocError> {
        self.add_half(master, data, "lm", "lmb")?;
        self.add_half(slave, master, "ls", "lsb")?;
        if init {
            self.add(Kind::P, slave, "rsb", "vdd")
        } else {
            self.add(Kind::N, slave, "rs", "vss")
        }
    }

    /// What drives the net of a sink.
    pub fn add_sink(
        &mut self,
        cells: &[PlainCell],
        end: PlainEnd,
        out: &str,
    ) -> Result<(), AllocError> {
        let alloc = self.alloc;
        let gate = match end {
            PlainEnd::Const(value) => String::from_str(alloc, if value { "vss" } else { "vdd" })?,
            PlainEnd::Literal(leaf, plus) => self.rail(leaf, !plus)?,
            PlainEnd::FromDynamic(root) => {
                let number = cell_of(cells, root);
                return match cells.get(number) {
                    Some(cell) => self.add_pair(number, cell, out),
                    None => Ok(()),
                };
            }
            PlainEnd::FromOutput(root) => { numbered(alloc, "z", cell_of(cells, root))? }
        };
        self.add_inverter(gate.as_str(), out)
    }
}

/// A device between the nets of these names.
fn card_of(
    alloc: Global,
    kind: Kind,
    drain: &str,
    gate: &str,
    source: &str,
) -> Result<Card, AllocError> {
    Ok(Card {
        kind,
        drain: String::from_str(alloc, drain)?,
        gate: String::from_str(alloc, gate)?,
        source: String::from_str(alloc, source)?,
    })
}

/// The number of the last cell of this root: behind a cell with its root stand the buffers of its chain.
fn cell_of(cells: &[PlainCell], root: usize) -> usize {
    let mut found = cells.len();
    for (number, cell) in cells.iter().enumerate() {
        if cell.root == root {
            found = number;
        }
    }
    found
}
