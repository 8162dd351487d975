//! Domino decks of networks: the circuit that synthesis gives of a network (Rabaey, Digital Integrated
//! Circuits: domino logic).
#![tactic(auto)]

mod bare;
mod both;
mod cell_counts;
mod cells;
mod chosen;
mod clocked;
mod complements;
mod counted;
mod counts;
mod figure_laws;
mod figured;
mod figures;
mod grouped;
mod groups;
mod inverters;
mod latches;
mod names;
mod sinks;
mod skew;
mod summaries;
mod synthesis;
mod taken;
mod texts;

pub use bare::{BareDeck, bare_deck};
pub use chosen::{ChosenForest, chosen_forest};
pub use clocked::with_clocks;
pub use complements::named_complements;
pub use deck_form::{DeckVersion, Style, SynthOptions, decks_are_domino};
pub use figure_laws::devices_are_counted;
pub use figured::{FiguredCircuit, synth_with_figures};
pub use figures::{Summary, append_summary};
pub use grouped::{Grouped, synth_grouped};
pub use groups::push_complements;
pub use latches::push_latches;
pub use names::gate_names;
pub use sinks::sink_gate_name;
pub use skew::synth_skew;
pub use summaries::summary;
pub use synthesis::{synth, synth_signs};
pub use texts::deck_text;
