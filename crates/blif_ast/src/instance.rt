//! Instances of other models in a model.
use dom_base::Name;
use std::marker::Model;

/// A port of the instance's model, and the signal of the model around it that it stands for.
#[derive(Clone, Debug, Drop)]
pub struct Binding {
    pub formal: Name,
    pub actual: Name,
}

/// An instance of the model `unit`, the card `.subckt`. `line` is the line of the card, from 1.
#[derive(Clone, Debug, Drop)]
pub struct Instance {
    pub unit: Name,
    pub bindings: Vec<Binding>,
    pub line: u64,
}

impl Model for Instance {
    ghost use Rattle.blif_ast.specs.InstanceData.{InstanceData};

    ghost Value = { InstanceData };

    ghost view = { λ i. record { unit = i.unit; bindings = i.bindings.items; line = i.line } };
}
