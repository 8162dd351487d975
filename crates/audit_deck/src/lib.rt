//! The audit of a circuit: the first rule that it breaks and the smallest net at which it does, if it isn't
//! built of domino cells with keepers.
#![tactic(auto)]

mod answer;
mod audits;
mod branches;
mod cell_order;
mod complements;
mod fronts;
mod index;
mod latches;
mod loops;
mod marks;
mod net_marks;
mod numbering;
mod order;
mod ports;
mod rules;
mod trees;
mod uses;
mod walk;

pub use answer::{Audit, Places};
pub use audits::audit;
pub use branches::{Branch, Reset};
pub use complements::Complements;
pub use fronts::{Front, Inverter};
pub use index::Index;
pub use latches::{LatchGroup, LatchParts};
pub use marks::Marks;
pub use net_marks::NetMarks;
pub use numbering::Numbering;
pub use order::DeckOrder;
pub use rules::Broken;
