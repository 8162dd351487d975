//! The text of a run, from its whole list of events.
use crate::play::Run;
use crate::sample::Sample;
use dom_base::Tri;
use std::alloc::{AllocError, Global};

/// The text of a run over these cycles, with a line for each event where they are asked for.
pub fn report(
    alloc: Global,
    sample: &Sample,
    cycles: &[Vec<bool>],
    run: &Run,
    events: bool,
) -> Result<String, AllocError> {
    let mut text = String::new(alloc);
    for period in 0..cycles.len().saturating_add(1) {
        if events {
            append_events(&mut text, sample, run, period)?;
        }
        let cycle = period.saturating_sub(1);
        if let Some(unsettled) = run.unsettled {
            if unsettled.period == period {
                let count = unsettled.events;
                writeln!(text, "unsettled cycle {cycle} events {count}")?;
                return Ok(text);
            }
        }
        let count = count_in(run, period);
        if period == 0 {
            writeln!(text, "power events {count}")?;
        } else {
            append_cycle(&mut text, cycle, cycles, run)?;
            writeln!(text, " events {count}")?;
        }
    }
    Ok(text)
}

/// How many events a period has.
fn count_in(run: &Run, period: usize) -> usize {
    let mut count = 0usize;
    for taken in &run.events {
        if taken.period == period {
            count = count.saturating_add(1);
        }
    }
    count
}

/// Appends a line for each event of a period.
fn append_events(
    text: &mut String,
    sample: &Sample,
    run: &Run,
    period: usize,
) -> Result<(), AllocError> {
    for (step, taken) in run.events.iter().enumerate() {
        if taken.period == period {
            let name = sample.name(taken.net);
            let before = letter(taken.before);
            let after = letter(taken.after);
            writeln!(text, "event {step} {name} {before} {after}")?;
        }
    }
    Ok(())
}

/// Appends what a cycle's line says of its pins and outputs.
fn append_cycle(
    text: &mut String,
    cycle: usize,
    cycles: &[Vec<bool>],
    run: &Run,
) -> Result<(), AllocError> {
    write!(text, "cycle {cycle} in ")?;
    if let Some(pins) = cycles.get(cycle) {
        append_pins(text, pins)?;
    }
    text.push_str(" out ")?;
    if let Some(outputs) = run.reads.get(cycle) {
        append_outputs(text, outputs)?;
    }
    Ok(())
}

/// Appends a letter for each pin, or `-` where there is none.
pub fn append_pins(text: &mut String, pins: &[bool]) -> Result<(), AllocError> {
    if pins.is_empty() {
        text.push_str("-")?;
    }
    for high in pins {
        text.push_str(if *high { "1" } else { "0" })?;
    }
    Ok(())
}

/// Appends a letter for each output, or `-` where there is none.
fn append_outputs(text: &mut String, outputs: &[Tri]) -> Result<(), AllocError> {
    if outputs.is_empty() {
        text.push_str("-")?;
    }
    for value in outputs {
        text.push_str(letter(*value))?;
    }
    Ok(())
}

fn letter(value: Tri) -> &'static str {
    match value {
        Tri::Zero => "0",
        Tri::One => "1",
        Tri::Unknown => "X",
    }
}
