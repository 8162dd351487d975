//! Models and files.
use crate::{Instance, Latch, Table};
use dom_base::Name;
use std::marker::Model;

/// A model of BLIF: its ports, and its tables, latches and instances, each kind in the order of its
/// cards. `line` is the line of the card `.model`, from 1.
#[derive(Clone, Debug, Drop)]
pub struct BlifModel {
    pub name: Name,
    pub inputs: Vec<Name>,
    pub outputs: Vec<Name>,
    pub tables: Vec<Table>,
    pub latches: Vec<Latch>,
    pub instances: Vec<Instance>,
    pub line: u64,
}

impl Model for BlifModel {
    ghost use Rattle.blif_ast.specs.BlifModelData.{BlifModelData};

    ghost Value = { BlifModelData };

    ghost view = { λ m. record {
      name = m.name;
      inputs = m.inputs.items;
      outputs = m.outputs.items;
      tables = m.tables.items;
      latches = m.latches.items;
      instances = m.instances.items;
      line = m.line;
    } };
}

/// A file of BLIF: its models in order, the main model first.
#[derive(Clone, Debug, Drop)]
pub struct BlifFile {
    pub models: Vec<BlifModel>,
}

impl Model for BlifFile {
    ghost use Rattle.blif_ast.specs.BlifFileData.{BlifFileData};

    ghost Value = { BlifFileData };

    ghost view = { λ f. record { models = f.models.items } };
}
