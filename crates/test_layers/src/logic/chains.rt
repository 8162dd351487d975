//! Long chains of tables.
use crate::logic::forest_of;
use comparison::gates_of;
use dual_rail::{Arm, End, Pair, Rail, size};
use gate_decompose::{Node, Ref};
use std::alloc::{AllocError, Global};
use std::test::Fail;

/// The tables of a chain.
const TABLES: u32 = 5_000;

/// A chain of tables with this row, each of which reads the one before it and then these words.
fn chain(alloc: Global, with: &str, row: &str) -> Result<String, AllocError> {
    let mut text = String::from_str(alloc, ".model m\n.inputs t0\n.outputs ")?;
    text.push_str(format!(in alloc; "t{TABLES}\n")?.as_str())?;
    for table in 1..=TABLES {
        let before = table - 1;
        text.push_str(format!(in alloc; ".names t{before}{with} t{table}\n{row}\n")?.as_str())?;
    }
    Ok(text)
}

/// Each And has one pair, of the sink's sign.
#[test]
fn chain_of_ands(rt: HostRuntime) -> Result<(), Fail> {
    let alloc = rt.alloc();
    let text = chain(alloc, " t0", "11 1")?;
    let gates = gates_of(alloc, text.as_str())?;
    assert_eq!(rt; gates.nodes.len(), TABLES as usize);
    assert!(rt; gates.nodes.last() == Some(&Node::And(Ref::Node(TABLES - 2), Ref::Leaf(0))));
    let forest = forest_of(&rt, alloc, &gates, "-")?;
    assert_eq!(rt; size(&forest), TABLES as u64);
    let literal = Arm::Literal(Rail {
        leaf: 0,
        plus: false,
    });
    assert!(rt; forest.pairs.last() == Some(&Pair::Or(Arm::Pair(TABLES - 2), literal)));
    assert!(rt; forest.ends.as_slice() == [End::FromOutput(TABLES - 1)].as_slice());
    Ok(())
}

/// An even number of Nots comes to the literal.
#[test]
fn chain_of_nots(rt: HostRuntime) -> Result<(), Fail> {
    let alloc = rt.alloc();
    let text = chain(alloc, "", "0 1")?;
    let gates = gates_of(alloc, text.as_str())?;
    assert_eq!(rt; gates.nodes.len(), TABLES as usize);
    let forest = forest_of(&rt, alloc, &gates, "-")?;
    assert_eq!(rt; size(&forest), 0);
    assert!(rt;
        forest.ends.as_slice()
            == [End::Literal(Rail {
                leaf: 0,
                plus: true
            })]
            .as_slice()
    );
    Ok(())
}
