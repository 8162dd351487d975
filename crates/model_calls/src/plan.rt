//! The cards of models by numbers.
use std::marker::Model;

/// A card of a model: a table or a latch by its index in the model, or an instance by its index there
/// and the number in the file of the model that it names.
#[derive(Clone, Copy)]
pub enum CardAt {
    Table(u32),
    Latch(u32),
    Instance(u32, u32),
}

/// The cards of a model in order of their lines.
#[derive(Drop)]
pub struct Plan {
    pub cards: Vec<CardAt>,
}

impl Model for Plan {
    ghost use Rattle.std.specs.Prelude.{List};
    ghost use Rattle.model_calls.specs.declared.plan.CardAt.{CardAt};

    ghost Value = { List CardAt };

    ghost view = { λ p. p.cards.items };
}
