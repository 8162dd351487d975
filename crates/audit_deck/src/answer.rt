//! The answer of an audit.
use std::marker::Model;

/// Places of devices in a circuit, in an order.
#[derive(Debug, Drop)]
pub struct Places(pub Vec<u32>);

impl Model for Places {
    ghost use Rattle.std.specs.Prelude.{List, ℕ};

    ghost Value = { List ℕ };

    ghost view = { λ p. p.0.items };
}

/// The answer of an audit: a circuit is built of domino cells with keepers, of so many, and their trees have at most this
/// width and height; or a rule is broken at a net, which is the first rule that is broken and its smallest net. `order` has
/// the places of the devices in the order of a deck: cells first, each behind those that it reads.
#[derive(Debug, Drop)]
pub enum Audit {
    Yes {
        order: Places,
        cells: u32,
        width: u32,
        height: u32,
    },
    No {
        rule: u32,
        net: u32,
    },
}
