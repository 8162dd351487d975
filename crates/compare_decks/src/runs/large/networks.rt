//! Texts of networks about as large as there may be.
use std::alloc::{AllocError, Global};

/// A chain of so many tables, each of which is 1 where the one before it is 0 and `a` is 1.
pub fn row_of_tables(alloc: Global, tables: u32) -> Result<String, AllocError> {
    let mut text = format!(in alloc; ".model m\n.inputs a t0\n.outputs t{tables}\n")?;
    for before in 0..tables {
        let table = before.saturating_add(1);
        text.push_str(format!(in alloc; ".names t{before} a t{table}\n01 1\n")?.as_str())?;
    }
    Ok(text)
}

/// Appends names of so many inputs.
fn push_inputs(alloc: Global, text: &mut String, inputs: u32) -> Result<(), AllocError> {
    for input in 0..inputs {
        text.push_str(format!(in alloc; " a{input}")?.as_str())?;
    }
    Ok(())
}

/// Appends a row with letters of all three kinds in turn, from this place on.
fn push_row(text: &mut String, inputs: u32, first: u32) -> Result<(), AllocError> {
    for input in 0..inputs {
        text.push_str(match input.saturating_add(first) % 3 {
            0 => "0",
            1 => "1",
            _ => "-",
        })?;
    }
    text.push_str(" 0\n")
}

/// One table with so many inputs and so many rows that end in 0.
pub fn wide_table(alloc: Global, inputs: u32, rows: u32) -> Result<String, AllocError> {
    let mut text = String::from_str(alloc, ".model m\n.inputs")?;
    push_inputs(alloc, &mut text, inputs)?;
    text.push_str("\n.outputs f\n.names")?;
    push_inputs(alloc, &mut text, inputs)?;
    text.push_str(" f\n")?;
    for row in 0..rows {
        push_row(&mut text, inputs, row)?;
    }
    Ok(text)
}
