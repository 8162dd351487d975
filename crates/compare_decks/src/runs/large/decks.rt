//! Texts of decks that are large or awkward.
use std::alloc::{AllocError, Global};

/// Devices with both ends at one net, at sources, and gated by their own drains. `o_a` is the opposite
/// of `i_a`. `o_b` falls with `i_b`, rises while `i_a` is `Zero`, and where it has risen pulls itself
/// down.
pub const AWKWARD: &str = ".subckt awkward vdd vss ck1 lm lmb ls lsb rs rsb i_a i_b o_a o_b\n\
    m0 o_a i_a vdd vdd pch\n\
    m1 o_a i_a vss vss nch\n\
    m2 o_a i_b o_a vss nch\n\
    m3 o_a o_a o_a vss nch\n\
    m4 vdd i_a vss vss nch\n\
    m5 vdd vss vdd vdd pch\n\
    m6 i_a i_b vss vss nch\n\
    m7 o_b o_b vss vss nch\n\
    m8 o_b i_b vss vss nch\n\
    m9 o_b i_a vdd vdd pch\n\
    .ends awkward\n";

/// A deck of this name with a pin and an output, up to its first device.
fn opened(alloc: Global, name: &str) -> Result<String, AllocError> {
    format!(in alloc; ".subckt {name} vdd vss ck1 lm lmb ls lsb rs rsb i_a o_f\n")
}

/// One component of so many nets in a row and an output. Each ends at a device that is off, by rising
/// number; then devices that are on join each to the one before it, by falling number; then as many join
/// the last two again. Both supplies pull at the first net, so that all are `Unknown`. The output is
/// joined to the last net while `i_a` is `One`, and is `One` while it is `Zero`.
pub fn chain(alloc: Global, nets: u32) -> Result<String, AllocError> {
    let mut text = opened(alloc, "chain")?;
    text.push_str("mp t0 vss vdd vdd pch\nmn t0 vdd vss vss nch\n")?;
    for net in 1..nets {
        text.push_str(format!(in alloc; "ma{net} t{net} vss vss vss nch\n")?.as_str())?;
    }
    for below in 1..nets {
        let net = nets.saturating_sub(below);
        let before = net.saturating_sub(1);
        text.push_str(format!(in alloc; "mb{net} t{net} vdd t{before} vss nch\n")?.as_str())?;
    }
    let last = nets.saturating_sub(1);
    let before = nets.saturating_sub(2);
    for again in 1..nets {
        text.push_str(format!(in alloc; "mc{again} t{last} vdd t{before} vss nch\n")?.as_str())?;
    }
    text.push_str(format!(in alloc; "mj o_f i_a t{last} vss nch\n")?.as_str())?;
    text.push_str("mo o_f i_a vdd vdd pch\n.ends chain\n")?;
    Ok(text)
}

/// An inverter from one net to another.
fn push_inverter(alloc: Global, text: &mut String, from: &str, to: &str) -> Result<(), AllocError> {
    text.push_str(format!(in alloc; "mp {to} {from} vdd vdd pch\n")?.as_str())?;
    text.push_str(format!(in alloc; "mn {to} {from} vss vss nch\n")?.as_str())
}

/// So many inverters of `i_a`, one of them to the output: it gates every device.
pub fn fan(alloc: Global, inverters: u32) -> Result<String, AllocError> {
    let mut text = opened(alloc, "fan")?;
    push_inverter(alloc, &mut text, "i_a", "o_f")?;
    for inverter in 1..inverters {
        let net = format!(in alloc; "n{inverter}")?;
        push_inverter(alloc, &mut text, "i_a", net.as_str())?;
    }
    text.push_str(".ends fan\n")?;
    Ok(text)
}

/// A ring of so many nets, an even number: a Nor of the output and `rs`, with the net between its two
/// devices in series, and inverters in a row behind it, the last one to the output. It turns while `rs`
/// is `Zero`.
pub fn ring(alloc: Global, nets: u32) -> Result<String, AllocError> {
    let last = nets.saturating_sub(3);
    let mut text = opened(alloc, "ring")?;
    text.push_str("mp r0 o_f u vdd pch\nmu u rs vdd vdd pch\n")?;
    text.push_str("mn r0 o_f vss vss nch\nmr r0 rs vss vss nch\n")?;
    for net in 0..last {
        let next = net.saturating_add(1);
        push_inverter(
            alloc,
            &mut text,
            &net_name(alloc, net)?,
            &net_name(alloc, next)?,
        )?;
    }
    push_inverter(alloc, &mut text, &net_name(alloc, last)?, "o_f")?;
    text.push_str(".ends ring\n")?;
    Ok(text)
}

/// The name of a net of the ring.
fn net_name(alloc: Global, net: u32) -> Result<String, AllocError> {
    format!(in alloc; "r{net}")
}
