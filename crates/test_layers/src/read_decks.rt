//! Decks, and what is read of them.
use comparison::AND_DECK;
use deck::{Circuit, Device, Phase};
use dom_base::NetName;
use spice_read::read;
use std::alloc::{AllocError, Global};
use std::test::Fail;

/// The sign and the net of each phase.
fn push_phases(text: &mut Vec<u8>, phases: &[Phase]) -> Result<(), AllocError> {
    for phase in phases {
        text.push(if phase.plus { b'+' } else { b'-' })?;
        text.extend_from_slice(phase.net.as_bytes())?;
    }
    Ok(())
}

/// The names of nets, each behind a blank.
fn push_nets(text: &mut Vec<u8>, nets: &[NetName]) -> Result<(), AllocError> {
    for net in nets {
        text.push(b' ')?;
        text.extend_from_slice(net.as_bytes())?;
    }
    Ok(())
}

/// The kinds of devices and the numbers of their nets.
fn push_devices(alloc: Global, text: &mut Vec<u8>, devices: &[Device]) -> Result<(), AllocError> {
    for device in devices {
        let ends = format!(in alloc;
            ",{:?} {} {} {}",
            device.kind, device.drain, device.gate, device.source
        )?;
        text.extend_from_slice(ends.as_bytes())?;
    }
    Ok(())
}

/// The name and the phases, the number of ports and the nets, and the devices by the numbers of
/// their nets.
fn summary(alloc: Global, circuit: &Circuit) -> Result<Vec<u8>, AllocError> {
    let mut text = Vec::new(alloc);
    text.extend_from_slice(circuit.name.as_bytes())?;
    push_phases(&mut text, circuit.phases.as_slice())?;
    let ports = format!(in alloc; " {}", circuit.ports)?;
    text.extend_from_slice(ports.as_bytes())?;
    push_nets(&mut text, circuit.nets.as_slice())?;
    push_devices(alloc, &mut text, circuit.devices.as_slice())?;
    Ok(text)
}

/// The summary of the circuit of a deck.
fn summary_of_deck(alloc: Global, deck: &[u8]) -> Result<Vec<u8>, Fail> {
    let circuit = read(alloc, deck)?;
    Ok(summary(alloc, &circuit)?)
}

/// Decks, with their circuits in words.
const CIRCUITS: &[(&[u8], &str)] = &[
    (
        AND_DECK,
        "and2+o_f 12 vdd vss ck1 lm lmb ls lsb rs rsb i_a i_b o_f d0 z0 t0_0 f0,P 12 2 0,Keep 12 13 0,\
         N 12 9 14,N 14 10 15,N 15 2 1,P 13 12 0,N 13 12 1,P 11 12 0,N 11 12 1",
    ),
    // ports in another order than that of roles, and nets that are seen first as a gate
    (
        b".subckt a o_f vss vdd\nm d g s x nch\nm g d o_f x pch\n.ends\n",
        "a 3 o_f vss vdd d g s,N 3 4 5,P 4 3 0",
    ),
    // CR, indents, upper case, comments before a line with `+`, and phases in all places
    (
        b"* PHASE A +\r\n .SUBCKT Top\t\r\n* phase b -\n*phase c +\n\n * comment\n\
         + X y\r\nMx1 X\n* phase d +\n+Y\n\n+z vdd PKEEP l=1\n.ends top\n* phase e -",
        "top+a-b+d-e 2 x y z,Keep 0 1 2",
    ),
    // what stands behind `.end`, and the card `.model`
    (
        b".model nch x=1\n.subckt a\n.ends a\n.end b\n* phase c +\n+ \x01\n.subckt a\n",
        "a 0",
    ),
    (
        b"* phase a + b\n* phase a *\n* phase a\x02 +\n.subckt a\n.ends",
        "a 0",
    ),
    // a port with the name of an inner net of a call is that net
    (
        b".subckt c a y\nm a b y y nch\n.ends\n.subckt t q x1.b\nx1 q z c\n.ends\n",
        "t 2 q x1.b z,N 0 1 2",
    ),
    // nets inside a call have its name in front
    (
        b".subckt two a b\nm1 a g n n nch\nm2 n g b b nch\n.ends\n\
         .subckt top vdd vss ck1 lm lmb ls lsb rs rsb o_y\nx1 o_y vss two\n.ends\n",
        "top 10 vdd vss ck1 lm lmb ls lsb rs rsb o_y x1.g x1.n,N 9 10 11,N 11 10 1",
    ),
    // the supplies are ports like others, and the circuit is the last subcircuit
    (
        b".subckt c a\nm a vdd vss vss nch\n.ends\n.subckt d q\nx1 q c\n.ends\n\
         .subckt t vdd b\nx0 vdd d\nx0 b d\n.ends\n",
        "t 2 vdd b x0.x1.vdd x0.x1.vss,N 0 2 3,N 1 2 3",
    ),
    // a net that no device names has no number, and a net is numbered where a device names it
    (
        b".subckt e a\n.ends\n.subckt c a\nm a n a a pch\n.ends\n\
         .subckt t\nx0 q e\nX1 r C\nx2 s c\n.ends\n",
        "t 0 r x1.n s x2.n,P 0 1 0,P 2 3 2",
    ),
];

#[test]
fn reads_circuits(rt: HostRuntime) -> Result<(), Fail> {
    let alloc = rt.alloc();
    for (text, wanted) in CIRCUITS {
        let told = summary_of_deck(alloc, text)?;
        assert_eq!(rt; told.as_slice(), wanted.as_bytes());
    }
    Ok(())
}
