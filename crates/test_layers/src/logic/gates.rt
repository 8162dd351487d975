//! Gates of tables, of constants and of wires.
use crate::logic::words::gates_words;
use comparison::gates_of;
use std::alloc::Global;
use std::process::Abort;
use std::test::Fail;

/// Holds the gates of texts against what they are in words.
fn hold(rt: &impl Abort, alloc: Global, cases: &[(&str, &str)]) -> Result<(), Fail> {
    for (text, wanted) in cases {
        let gates = gates_of(alloc, text)?;
        let found = gates_words(alloc, &gates)?;
        assert_eq!(rt; found.as_str(), *wanted, "{text}");
    }
    Ok(())
}

/// Tables, with their gates in words.
const TABLES: &[(&str, &str)] = &[
    (
        ".model m\n.inputs a b\n.outputs f g\n.names a b f\n11 1\n.names f g\n0 1\n",
        "l0 & l1; !n0; -> n0 n1",
    ),
    (
        ".model m\n.inputs a b c\n.outputs f\n.names a b c f\n010 1\n",
        "!l0; n0 & l1; !l2; n1 & n2; -> n3",
    ),
    (
        ".model m\n.inputs a b c d e\n.outputs f\n.names a b c d e f\n01-10 1\n",
        "!l0; n0 & l1; !l4; l3 & n2; n1 & n3; -> n4",
    ),
    (
        ".model m\n.inputs a b c d e\n.outputs f\n.names a b c d e f\n11111 1\n",
        "l0 & l1; n0 & l2; l3 & l4; n1 & n2; -> n3",
    ),
    (
        ".model m\n.inputs a b c\n.outputs f\n.names a b c f\n1-- 1\n-1- 1\n--1 1\n",
        "l0 | l1; n0 | l2; -> n1",
    ),
    (
        ".model m\n.inputs a b c\n.outputs f\n.names a b c f\n11- 1\n0-1 1\n",
        "l0 & l1; !l0; n1 & l2; n0 | n2; -> n3",
    ),
    (
        ".model m\n.inputs a b\n.outputs f\n.names a b f\n11 0\n00 0\n",
        "l0 & l1; !l0; !l1; n1 & n2; n0 | n3; !n4; -> n5",
    ),
    (
        ".model m\n.inputs a b\n.outputs f\n.names b a f\n10 1\n",
        "!l0; l1 & n0; -> n1",
    ),
];

/// A row is the balanced And of its letters, whose larger half comes first, and a table the balanced Or of its
/// rows. Each Not stands where its letter stands, and that of rows that end in 0 comes last.
#[test]
fn gates_of_tables(rt: HostRuntime) -> Result<(), Fail> {
    hold(&rt, rt.alloc(), TABLES)
}

/// Constants, with the gates in words.
const CONSTANTS: &[(&str, &str)] = &[
    (
        ".model m\n.outputs f g h\n.names f\n.names g\n1\n.names h\n0\n",
        "-> 0 1 0",
    ),
    (
        ".model m\n.inputs a b\n.outputs f\n.names a b f\n11 1\n-- 1\n",
        "l0 & l1; -> 1",
    ),
    (
        ".model m\n.inputs a\n.outputs f g\n.names one\n1\n.names one a f\n11 1\n.names one a g\n01 1\n",
        "-> l0 0",
    ),
    (
        ".model m\n.inputs a\n.outputs f g h\n.names no\n.names no a f\n11 1\n.names no a g\n01 1\n\
     .names no a h\n1- 1\n-1 1\n",
        "-> 0 l0 l0",
    ),
    (
        ".model m\n.inputs a b\n.outputs f g\n.names no\n.names a b no f\n111 1\n.names a b f g\n--1 0\n",
        "l0 & l1; -> 0 1",
    ),
];

/// An empty And is 1 and an empty Or 0; an operator over the constant that decides it is a constant, and over
/// the other one its other part. A node that only such an operator reads stays.
#[test]
fn gates_of_constants(rt: HostRuntime) -> Result<(), Fail> {
    hold(&rt, rt.alloc(), CONSTANTS)
}

/// Wires and inputs that are named twice, with the gates in words.
const WIRES: &[(&str, &str)] = &[
    (".model m\n.inputs a\n.outputs a\n", "-> l0"),
    (
        ".model m\n.inputs a\n.outputs f g h i\n.names a f\n1 1\n.names a g\n0 1\n.names a h\n1 0\n.names a i\n0 0\n",
        "!l0; !l0; !l0; !n2; -> l0 n0 n1 n3",
    ),
    (
        ".model m\n.inputs a\n.outputs f g\n.names a a f\n11 1\n.names a a g\n10 1\n",
        "l0 & l0; !l0; l0 & n1; -> n0 n2",
    ),
    (
        ".model m\n.inputs a\n.outputs f q\n.names a q f\n11 1\n.latch f q 1\n.latch a r 0\n",
        "l0 & l1; -> n0 l1 n0 l0",
    ),
];

/// A wire comes to what it reads, and an input that is named twice stands twice.
#[test]
fn gates_of_wires_and_repeated_inputs(rt: HostRuntime) -> Result<(), Fail> {
    hold(&rt, rt.alloc(), WIRES)
}
