//! Long texts, each of one part that is repeated.
use Order::{Backwards, Forwards};
use std::alloc::{AllocError, Global};

/// In which order the parts of a text stand.
#[derive(Clone, Copy, PartialEq, Eq)]
pub enum Order {
    Forwards,
    Backwards,
}

/// A text: its head, a part, its tail, how often the part is repeated, and the order of the parts. In a part `<` stands for
/// its number, from 0, and `>` for the next one.
#[derive(Clone, Copy)]
pub struct Shape(&'static str, &'static str, &'static str, usize, Order);

const LEVEL: &str = ".model l<\n.inputs a\n.outputs f\n.subckt l> f=f a=a\n.end\n";

const BOTTOM: &str = ".model l30\n.inputs a\n.outputs f\n.names a f\n0 1\n.end\n";

const TOP: &str = ".model m\n.inputs a\n.outputs f\n.subckt l0 a=a f=f\n.end\n";

const BUFFER: &str = ".end\n.model b\n.inputs a\n.outputs f\n.names a f\n0 1\n.end\n";

const STAGE: &str = ".end\n.model c\n.inputs clk d\n.outputs q\n.latch d q re clk 1\n.end\n";

/// Chains, loops, doubling, many instances, ports, rows and names.
pub const SHAPES: &[Shape] = &[
    Shape(
        ".model m\n.inputs t0\n.outputs t30\n",
        ".names t< t>\n0 1\n",
        "",
        30,
        Forwards,
    ),
    Shape(
        ".model m\n.inputs t0\n.outputs t30\n",
        ".names t< t>\n0 1\n",
        "",
        30,
        Backwards,
    ),
    Shape(
        ".model m\n.outputs t30\n",
        ".names t< t>\n0 1\n",
        "",
        30,
        Forwards,
    ),
    Shape(
        ".model m\n.outputs t0\n",
        ".names t> t<\n1 1\n",
        ".names t0 t30\n1 1\n",
        30,
        Forwards,
    ),
    Shape(
        ".model m\n.outputs t0\n.names t0 t30\n1 1\n",
        ".names t> t<\n1 1\n",
        "",
        30,
        Backwards,
    ),
    Shape(
        ".model m\n.inputs q0\n.outputs q30\n",
        ".latch q< q> 1\n",
        "",
        30,
        Forwards,
    ),
    Shape(
        ".model m\n.outputs q0\n.latch q0 q30 0\n",
        ".latch q> q< re NIL 2\n",
        "",
        30,
        Backwards,
    ),
    Shape(
        ".model m\n.latch a a\n",
        ".latch a b< fe NIL 2\n",
        ".latch a c re NIL 2\n",
        30,
        Forwards,
    ),
    Shape(TOP, LEVEL, BOTTOM, 30, Forwards),
    Shape(TOP, LEVEL, BOTTOM, 30, Backwards),
    Shape(
        TOP,
        LEVEL,
        ".model l30\n.inputs a\n.outputs f\n.subckt l7 a=a f=f\n.end\n",
        30,
        Forwards,
    ),
    Shape(
        "",
        ".model l<\n.subckt l>\n.subckt l>\n.end\n",
        ".model l70\n.end\n",
        70,
        Forwards,
    ),
    Shape(
        "",
        ".model l<\n.subckt l>\n.subckt l>\n.end\n",
        ".model l70\n.names a\n.end\n",
        70,
        Forwards,
    ),
    Shape(
        "",
        ".model l<\n.subckt l>\n.subckt l>\n.end\n",
        ".model l5\n.latch q q 1\n.end\n",
        5,
        Forwards,
    ),
    Shape(
        ".model m\n.inputs a\n",
        ".subckt b a=a\n",
        BUFFER,
        30,
        Forwards,
    ),
    Shape(
        ".model m\n.inputs t0\n.outputs t30\n",
        ".subckt b f=t> a=t<\n",
        BUFFER,
        30,
        Forwards,
    ),
    Shape(
        ".model m\n.inputs t0\n.outputs t30\n",
        ".subckt b a=t< f=t>\n",
        BUFFER,
        30,
        Backwards,
    ),
    Shape(
        ".model m\n.outputs t0\n.subckt b a=t0 f=t30\n",
        ".subckt b a=t> f=t<\n",
        BUFFER,
        30,
        Forwards,
    ),
    Shape(
        ".model m\n.inputs clk t0\n.outputs t30\n",
        ".subckt c d=t< q=t> clk=clk\n",
        STAGE,
        30,
        Forwards,
    ),
    Shape(
        ".model m\n.inputs clk t0\n.outputs t30\n",
        ".subckt c d=t< q=t> clk=t<\n",
        STAGE,
        30,
        Forwards,
    ),
    Shape(
        ".model m\n.inputs clk t0\n.outputs t30 clk\n",
        ".subckt c d=t< q=t> clk=clk\n",
        STAGE,
        30,
        Forwards,
    ),
    Shape(".model m\n", ".inputs a<\n.outputs a<\n", "", 60, Forwards),
    Shape(
        ".model m\n.inputs t\n.outputs f\n.names t t t f\n",
        "1-0 0\n",
        "",
        60,
        Forwards,
    ),
    Shape(
        ".model m\n.inputs a\n",
        ".names w<\n.names ww<\n",
        ".subckt b a=a\n.subckt b a=w1\n.end\n.model b\n.inputs a\n.names a f\n1 1\n",
        15,
        Forwards,
    ),
];

/// Appends a part with this number.
fn push(alloc: Global, text: &mut String, part: &str, number: usize) -> Result<(), AllocError> {
    let this = format!(in alloc; "{number}")?;
    let number = number.saturating_add(1);
    let next = format!(in alloc; "{number}")?;
    for letter in part.chars() {
        match letter {
            '<' => text.push_str(this.as_str())?,
            '>' => text.push_str(next.as_str())?,
            _ => text.push(letter)?,
        }
    }
    Ok(())
}

/// The text of a shape.
pub fn shaped(alloc: Global, shape: Shape) -> Result<String, AllocError> {
    let Shape(head, part, tail, count, order) = shape;
    let mut text = String::from_str(alloc, head)?;
    for place in 0..count {
        let number = match order {
            Order::Forwards => place,
            Order::Backwards => count - 1 - place,
        };
        push(alloc, &mut text, part, number)?;
    }
    text.push_str(tail)?;
    Ok(text)
}
