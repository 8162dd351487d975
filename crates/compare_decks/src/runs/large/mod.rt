//! Networks and circuits about as large and as awkward as there may be: the gates and the forests of the first, and what comes of
//! the others where they are simulated.
mod decks;
mod logic;
mod networks;
mod ring;

use comparison::{Trouble, printed};
use decks::{AWKWARD, chain, fan, ring};
use logic::{Counts, counts_of};
use networks::{row_of_tables, wide_table};
use ring::{Outcome, turned};
use std::alloc::Global;
use trace_tool::{Order, TraceFault, TraceOptions, sim};

/// The tables of the chain of tables.
const TABLES: u32 = 66_600;

/// The inputs and the rows of the wide table.
const INPUTS: u32 = 4_096;

const ROWS: u32 = 96;

/// The nets of the chain.
const CHAINED: u32 = 20_000;

/// The nets that one net gates.
const GATED: u32 = 20_000;

/// The nets, no sources, of the ring whose trace is made.
const SMALL_RING: u32 = 2_000;

/// The nets, no sources, of the ring that only begins to turn, and how many events it is turned by.
const LARGE_RING: u32 = 200_000;

const EVENTS: u32 = 200_000;

/// The text of the trace of a deck over a stimulus.
fn trace_of(alloc: Global, deck: &str, stimulus: &str, order: Order) -> Result<String, Trouble> {
    let options = TraceOptions {
        order,
        seed: 7,
        probes: Vec::new(alloc),
        events: false,
    };
    let trace = match sim(alloc, deck.as_bytes(), stimulus.as_bytes(), &options) {
        Ok(trace) => trace,
        Err(TraceFault::Memory) => return Err(Trouble::Memory),
        Err(_) => return Err(Trouble::Refused),
    };
    match String::from_utf8(trace.text) {
        Ok(text) => Ok(text),
        Err(_) => Err(Trouble::Refused),
    }
}

/// Prints the trace of a deck over a stimulus in each order.
fn print_traces(
    rt: &impl Print,
    alloc: Global,
    what: &str,
    deck: &str,
    stimulus: &str,
    orders: &[(&str, Order)],
) -> Result<(), Trouble> {
    for (name, order) in orders {
        let text = trace_of(alloc, deck, stimulus, *order)?;
        printed(print!(rt; "{what}, {name}\n{text}"))?;
    }
    Ok(())
}

/// Prints how far a ring turns.
fn print_turned(rt: &impl Print, alloc: Global, nets: u32, events: u32) -> Result<(), Trouble> {
    let deck = ring(alloc, nets)?;
    match turned(alloc, deck.as_str(), events)? {
        Outcome::Turns(first) => printed(println!(rt;
            "ring of {nets} nets: rest after {first} events, then {events} without rest"
        )),
        Outcome::Stops => printed(println!(rt; "ring of {nets} nets: stops")),
    }
}

/// Prints how many nodes and pairs a network has.
fn print_counts(rt: &impl Print, alloc: Global, what: &str, text: &str) -> Result<(), Trouble> {
    let Counts { nodes, pairs } = counts_of(alloc, text)?;
    printed(println!(rt; "{what}: {nodes} nodes, {pairs} pairs"))
}

fn print_networks(rt: &impl Print, alloc: Global) -> Result<(), Trouble> {
    print_counts(rt, alloc, "chain", row_of_tables(alloc, TABLES)?.as_str())?;
    print_counts(
        rt,
        alloc,
        "wide table",
        wide_table(alloc, INPUTS, ROWS)?.as_str(),
    )
}

fn print_circuits(rt: &impl Print, alloc: Global) -> Result<(), Trouble> {
    let all = [
        ("first", Order::First),
        ("last", Order::Last),
        ("seed 7", Order::Seed),
    ];
    print_traces(
        rt,
        alloc,
        "awkward devices",
        AWKWARD,
        "00\n11\n10\n00\n01\n",
        &all,
    )?;
    let deck = chain(alloc, CHAINED)?;
    print_traces(rt, alloc, "one component", deck.as_str(), "1\n0\n1\n", &all)?;
    let deck = fan(alloc, GATED)?;
    print_traces(rt, alloc, "one gate", deck.as_str(), "1\n0\n", &all)?;
    let deck = ring(alloc, SMALL_RING)?;
    print_traces(rt, alloc, "ring", deck.as_str(), "0\n", &all[..1])?;
    print_turned(rt, alloc, LARGE_RING, EVENTS)
}

/// Prints what comes of large and awkward cases.
pub fn print_large(rt: &impl Print, alloc: Global) -> Result<(), Trouble> {
    print_networks(rt, alloc)?;
    print_circuits(rt, alloc)
}
