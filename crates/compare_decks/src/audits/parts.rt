//! The plain audit: rule by rule, over the whole list of devices, and what it finds.
use crate::audits::cells::{Cell, Front, cell_of, front_of, has_output};
use crate::audits::design::Design;
use crate::audits::latches::{Group, broken_latch, groups_of};
use crate::audits::leaves::broken_leaf;
use crate::audits::uses::{broken_use, complements_of};
use crate::audits::words::{dynamic_nets, inputs_of};
use std::alloc::{AllocError, Global};

/// The input of each net as an inverter output, the cells, the groups of the form of a latch, and the complements.
#[derive(Drop)]
pub struct Parts {
    pub inputs: Vec<Option<usize>>,
    pub cells: Vec<Cell>,
    pub groups: Vec<Group>,
    pub complements: Vec<usize>,
}

impl Parts {
    /// Whether a net is the dynamic net of a cell.
    pub fn is_dynamic(&self, net: usize) -> bool {
        self.cells.iter().any(|cell| cell.front.dynamic == net)
    }

    /// Whether a net is the output of a cell.
    pub fn is_output(&self, net: usize) -> bool {
        self.cells.iter().any(|cell| cell.front.output == net)
    }

    /// Whether a net is reached in a cell.
    pub fn is_in_cell(&self, net: usize) -> bool {
        self.cells.iter().any(|cell| cell.nets.contains(&net))
    }

    /// Whether a net is a latch's own.
    pub fn is_in_latch(&self, net: usize) -> bool {
        self.groups.iter().any(|group| group.owns(net))
    }

    /// Whether a net is the output of a latch.
    pub fn is_latch_output(&self, net: usize) -> bool {
        self.groups.iter().any(|group| group.output == net)
    }

    /// Whether a net is the data of a latch.
    pub fn is_data(&self, net: usize) -> bool {
        self.groups.iter().any(|group| group.data == net)
    }

    pub fn width(&self) -> usize {
        self.cells.iter().map(|cell| cell.width).max().unwrap_or(0)
    }

    pub fn height(&self) -> usize {
        self.cells.iter().map(|cell| cell.height).max().unwrap_or(0)
    }
}

/// What the plain audit answers: that all rules hold, or the first broken one and its smallest net.
#[derive(Drop)]
pub enum PlainAudit {
    Yes(Parts),
    No(usize, usize),
}

/// The fronts of dynamic nets up to the first one that breaks the first rule.
fn fronts_of(alloc: Global, design: &Design, dynamic: &[usize]) -> Result<Vec<Front>, AllocError> {
    let mut fronts = Vec::new(alloc);
    for net in dynamic {
        match front_of(design, *net) {
            Some(front) => fronts.push(front)?,
            None => break,
        }
    }
    Ok(fronts)
}

/// The cells of fronts up to the first one that breaks the third rule.
fn cells_of(alloc: Global, design: &Design, fronts: &[Front]) -> Result<Vec<Cell>, AllocError> {
    let mut cells = Vec::new(alloc);
    for front in fronts {
        match cell_of(alloc, design, *front)? {
            Some(cell) => cells.push(cell)?,
            None => break,
        }
    }
    Ok(cells)
}

/// The first front that breaks the second rule.
fn broken_output<'a>(
    design: &Design,
    inputs: &[Option<usize>],
    fronts: &'a [Front],
) -> Option<&'a Front> {
    fronts
        .iter()
        .find(|front| !has_output(design, inputs, **front))
}

/// The first broken one of the rules on latches, on other nets and on the gates of trees, with its smallest net. The groups
/// and the complements are put beside the cells.
fn broken_rule(
    alloc: Global,
    design: &Design,
    parts: &mut Parts,
) -> Result<Option<(usize, usize)>, AllocError> {
    parts.groups = groups_of(alloc, design)?;
    if let Some(net) = broken_latch(design, &parts.groups) {
        return Ok(Some((4, net)));
    }
    parts.complements = complements_of(alloc, design, parts)?;
    if let Some(net) = broken_use(design, parts) {
        return Ok(Some((5, net)));
    }
    Ok(match broken_leaf(alloc, design, parts)? {
        Some(net) => Some((6, net)),
        None => None,
    })
}

/// What the rules on latches, on other nets and on the gates of trees answer.
fn with_cells(
    alloc: Global,
    design: &Design,
    inputs: Vec<Option<usize>>,
    cells: Vec<Cell>,
) -> Result<PlainAudit, AllocError> {
    let mut parts = Parts {
        inputs,
        cells,
        groups: Vec::new(alloc),
        complements: Vec::new(alloc),
    };
    Ok(match broken_rule(alloc, design, &mut parts)? {
        Some((rule, net)) => PlainAudit::No(rule, net),
        None => PlainAudit::Yes(parts),
    })
}

/// What all rules but the first one answer.
fn with_fronts(alloc: Global, design: &Design, fronts: &[Front]) -> Result<PlainAudit, AllocError> {
    let inputs = inputs_of(alloc, design)?;
    if let Some(front) = broken_output(design, &inputs, fronts) {
        return Ok(PlainAudit::No(2, front.dynamic));
    }
    let cells = cells_of(alloc, design, fronts)?;
    match fronts.get(cells.len()) {
        Some(front) => Ok(PlainAudit::No(3, front.dynamic)),
        None => with_cells(alloc, design, inputs, cells),
    }
}

/// Audits a circuit.
pub fn audited(alloc: Global, design: &Design) -> Result<PlainAudit, AllocError> {
    let dynamic = dynamic_nets(alloc, design)?;
    let fronts = fronts_of(alloc, design, &dynamic)?;
    match dynamic.get(fronts.len()) {
        Some(net) => Ok(PlainAudit::No(1, *net)),
        None => with_fronts(alloc, design, &fronts),
    }
}
