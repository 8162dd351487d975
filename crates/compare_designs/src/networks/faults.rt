//! Texts that are refused for one thing, and for one of two.
use std::alloc::{AllocError, Global};

/// What a file is refused for, with the cards of the main model and the further models that make it so. A `?` stands for the
/// number of the place.
#[derive(Clone, Copy)]
pub struct Fault {
    pub number: u64,
    pub cards: &'static str,
    pub models: &'static str,
}

/// Each refusal, in the order in which they are looked for.
pub const FAULTS: &[Fault] = &[
    Fault {
        number: 10,
        cards: "",
        models: ".model d?\n.end\n.model d?\n.end\n",
    },
    Fault {
        number: 11,
        cards: "",
        models: ".model p?\n.outputs x y x\n.end\n",
    },
    Fault {
        number: 12,
        cards: ".subckt nowhere?\n",
        models: "",
    },
    Fault {
        number: 13,
        cards: ".subckt f?\n",
        models: ".model f?\n.inputs x\n.end\n",
    },
    Fault {
        number: 14,
        cards: "",
        models: ".model r?\n.subckt r?\n.end\n",
    },
    // six levels of eight instances
    Fault {
        number: 20,
        cards: ".subckt k?\n",
        models: ".model k?\n.subckt l?\n.subckt l?\n.subckt l?\n.subckt l?\n.subckt l?\n.subckt l?\n.subckt l?\n.subckt l?\n\
            .model l?\n.subckt m?\n.subckt m?\n.subckt m?\n.subckt m?\n.subckt m?\n.subckt m?\n.subckt m?\n.subckt m?\n\
            .model m?\n.subckt n?\n.subckt n?\n.subckt n?\n.subckt n?\n.subckt n?\n.subckt n?\n.subckt n?\n.subckt n?\n\
            .model n?\n.subckt o?\n.subckt o?\n.subckt o?\n.subckt o?\n.subckt o?\n.subckt o?\n.subckt o?\n.subckt o?\n\
            .model o?\n.subckt q?\n.subckt q?\n.subckt q?\n.subckt q?\n.subckt q?\n.subckt q?\n.subckt q?\n.subckt q?\n\
            .model q?\n.subckt t?\n.subckt t?\n.subckt t?\n.subckt t?\n.subckt t?\n.subckt t?\n.subckt t?\n.subckt t?\n\
            .model t?\n.end\n",
    },
    Fault {
        number: 15,
        cards: ".names v?\n.names v?\n1\n",
        models: "",
    },
    Fault {
        number: 16,
        cards: ".names u? s?\n1 1\n",
        models: "",
    },
    Fault {
        number: 17,
        cards: ".names c? c?\n1 1\n",
        models: "",
    },
    Fault {
        number: 18,
        cards: ".latch e? e? re NIL 0\n.latch g? g? fe NIL 0\n",
        models: "",
    },
    Fault {
        number: 19,
        cards: ".latch h? h? re clk 0\n.names clk i?\n1 1\n",
        models: "",
    },
];

/// Appends a text with the number of a place.
fn push(text: &mut String, part: &str, place: usize) -> Result<(), AllocError> {
    for letter in part.chars() {
        if letter == '?' {
            text.push_str(if place == 0 { "0" } else { "1" })?;
        } else {
            text.push(letter)?;
        }
    }
    Ok(())
}

/// A file with these faults.
pub fn faulty(alloc: Global, faults: &[Fault]) -> Result<String, AllocError> {
    let mut text = String::from_str(alloc, ".model top\n.inputs clk\n")?;
    for (place, fault) in faults.iter().enumerate() {
        push(&mut text, fault.cards, place)?;
    }
    text.push_str(".end\n")?;
    for (place, fault) in faults.iter().enumerate() {
        push(&mut text, fault.models, place)?;
    }
    Ok(text)
}
