//! Targets that were worked by hand.
ghost use Rattle.std.specs.Prelude.{◌≡◌, ◌≤◌, IfOk, length};

use comparison::AND_DECK;
use deck::{Circuit, roles};
use dom_base::{Kind, Tri};
use spice_read::read;
use std::alloc::{AllocError, Global};
use std::process::Abort;
use std::test::Fail;
use switch_model::{Links, Switch, conducts};

fn tri_of(letter: u8) -> Tri {
    match letter {
        b'0' => Tri::Zero,
        b'1' => Tri::One,
        _ => Tri::Unknown,
    }
}

/// The values that letters stand for.
fn values_of(alloc: Global, letters: &str) -> Result<Vec<Tri>, AllocError> {
    let mut values = Vec::new(alloc);
    for letter in letters.as_bytes() {
        values.push(tri_of(*letter))?;
    }
    Ok(values)
}

/// The links of a circuit, and the values of its nets that letters stand for.
pub fn links_with_values(
    rt: &impl Abort,
    alloc: Global,
    circuit: &Circuit,
    letters: &str,
) -> Result<(Links, Vec<Tri>), Fail>
    ensures whole { IfOk result (λ found. length found.1.items ≡ found.0.nets) }
    ensures few { IfOk result (λ found. length found.1.items ≤ 1000000) }
{
    let roles = roles(circuit)?;
    let links = Links::new(alloc, circuit, roles)?;
    let values = values_of(alloc, letters)?;
    assert!(rt; values.len() == circuit.nets.as_slice().len());
    assert!(rt; values.len() <= 1_000_000);
    Ok((links, values))
}

/// The target of each net that is no source, as letters, and `-` behind them where all nets have theirs.
fn targets(alloc: Global, links: &mut Links, values: &[Tri]) -> Result<Vec<u8>, AllocError>
    requires whole { length values.now ≡ links.old.nets }
    requires few { length values.now ≤ 1000000 }
{
    let mut all = Vec::new(alloc);
    for net in links.sources()..values.len() as u32 {
        let target = links.target(values, net);
        all.push(target.letter())?;
    }
    if links.at_rest(values) {
        all.push(b'-')?;
    }
    Ok(all)
}

/// The targets of the nets of a circuit at these values.
fn targets_at(
    rt: &impl Abort,
    alloc: Global,
    circuit: &Circuit,
    values: &str,
) -> Result<Vec<u8>, Fail> {
    let (mut links, values) = links_with_values(rt, alloc, circuit, values)?;
    Ok(targets(alloc, &mut links, &values)?)
}

/// States of the cell, with the values of its nets and their targets.
const TARGETS: &[(&str, &str, &str)] = &[
    ("power", "10001011000XXXXX", "X1XXX"),
    ("precharge", "10001010100010XX", "010XX-"),
    ("before a fall", "10101010111010XX", "00000"),
    ("after a fall", "101010101X101000", "0X000"),
    ("a charge", "1010101011001000", "01010"),
    ("an unknown keeper", "1010101011001X10", "0X0X0"),
];

/// The smallest cell: an And of two pins, in power, after precharge, before and after a fall of its
/// dynamic net, with an unknown pin, with a charge that comes from the keeper, and with an unknown keeper.
#[test]
fn targets_of_a_cell(rt: HostRuntime) -> Result<(), Fail> {
    let alloc = rt.alloc();
    let circuit = read(alloc, AND_DECK)?;
    for (what, values, want) in TARGETS {
        let found = targets_at(&rt, alloc, &circuit, values)?;
        assert!(rt; found.as_slice() == want.as_bytes(), "at {what}");
    }
    Ok(())
}

#[test]
fn conduction_of_kinds(rt: HostRuntime) {
    assert!(rt; conducts(Kind::N, Tri::One) == Switch::On);
    assert!(rt; conducts(Kind::N, Tri::Zero) == Switch::Off);
    assert!(rt; conducts(Kind::P, Tri::Zero) == Switch::On);
    assert!(rt; conducts(Kind::Keep, Tri::One) == Switch::Off);
    assert!(rt; conducts(Kind::Keep, Tri::Unknown) == Switch::Maybe);
}
